//! A walk: three clients of a server move and look about by the rows of a table, and three mobs by
//! the plans of its first rows. At each tick what the packets of each client make of its world is
//! compared with where the rows put the others and the mobs.
//!
//! It has no contract of its own: it prints how many rows were played and by which packets they
//! were told, or the first row behind which a client was told something else.
#![tactic(auto)]

mod acts;
mod fault;
mod mobs;
mod others;
mod tally;
mod walk;
mod walker;

use fault::{Fault, Stop};
use mc_entities::Planned;
use mobs::{MOBS, mind_of};
use std::alloc::Global;
use std::io;
use std::io::{BufWriter, Write};
use tally::Tally;
use walk::Walk;

/// Plays the rows of a table behind those of the mobs; answers the first with a fault.
fn play_rows(walk: &mut Walk, table: &str) -> Result<(), Stop> {
    let mut number = 0u32;
    for row in table.trim_end_matches('\n').split('\n') {
        number = number.saturating_add(1);
        if number > MOBS {
            if let Err(fault) = walk.play(row) {
                return Err(Stop { number, fault });
            }
        }
    }
    Ok(())
}

/// The minds of a table's first rows.
fn minds_of(alloc: Global, table: &str) -> Result<Vec<Planned>, Fault> {
    let mut minds = Vec::new(alloc);
    for row in table.split('\n').take(MOBS as usize) {
        if minds.push(mind_of(alloc, row)?).is_err() {
            return Err(Fault::NoMemory);
        }
    }
    Ok(minds)
}

/// A walk that begins, with the mobs of a table's first rows.
fn begin(alloc: Global, table: &str) -> Result<Walk, Fault> {
    Walk::new(alloc, minds_of(alloc, table)?)
}

/// Plays a table on a new walk; answers what was counted, or the first row with a fault.
fn play(alloc: Global, table: &str) -> Result<Tally, Stop> {
    let mut walk = begin(alloc, table).map_err(|fault| Stop { number: 0, fault })?;
    let played = play_rows(&mut walk, table);
    let tally = walk.tally();
    drop(walk);
    played?;
    Ok(tally)
}

fn main(rt: HostRuntime) -> io::Result<()> {
    // Dear to prove, for the ways out at which the table or what waits to be written is alive.
    let alloc = rt.alloc();
    let table = io::read_to_string(alloc, rt.reader())?;
    let mut out = BufWriter::new(alloc, io::writer(&rt))?;
    match play(alloc, table.as_str()) {
        Ok(tally) => writeln!(out, "{tally}")?,
        Err(stop) => writeln!(out, "{stop}")?,
    }
    out.flush()
}
