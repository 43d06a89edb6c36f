//! A trade: four clients of a server dig, place, open chests, click, close, drop, walk, leave and
//! come back by the rows of a table. At each tick what each was told of its window and of the cells
//! is compared with what the rows say.
//!
//! It has no contract of its own: it prints how many rows were played and by which packets they
//! were told, or the first row behind which a client was told something else.
#![tactic(auto)]

mod acts;
mod answer;
mod fault;
mod floor;
mod land;
mod pane;
mod pile;
mod tally;
mod trade;
mod trader;

use fault::Stop;
use std::alloc::Global;
use std::io;
use std::io::{BufWriter, Write};
use tally::Tally;
use trade::Trade;

/// Plays the rows of a table; answers the first with a fault.
fn play_rows(trade: &mut Trade, table: &str) -> Result<(), Stop> {
    let mut number = 0u32;
    for row in table.trim_end_matches('\n').split('\n') {
        number = number.saturating_add(1);
        if let Err(fault) = trade.play(row) {
            return Err(Stop { number, fault });
        }
    }
    Ok(())
}

/// Plays a table on a new trade; answers what was counted, or the first row with a fault.
fn play(alloc: Global, table: &str) -> Result<Tally, Stop> {
    let mut trade = Trade::new(alloc).map_err(|fault| Stop { number: 0, fault })?;
    let played = play_rows(&mut trade, table);
    let tally = trade.tally();
    drop(trade);
    played?;
    Ok(tally)
}

fn main(rt: HostRuntime) -> io::Result<()> {
    // Dear to prove, for the ways out at which the table or what waits to be written is alive.
    let alloc = rt.alloc();
    let table = io::read_to_string(alloc, rt.reader())?;
    let mut out = BufWriter::new(alloc, io::writer(&rt))?;
    match play(alloc, table.as_str()) {
        Ok(tally) => writeln!(out, "{tally}")?,
        Err(stop) => writeln!(out, "{stop}")?,
    }
    out.flush()
}
