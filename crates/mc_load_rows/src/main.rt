//! A table of rows: each names a generated load, and is repeated with what telling that load
//! answers, or with how often a replica of a client was what the server says of that client. It
//! stands on `mc_measure`, and for replicas on `mc_server` and `mc_replica`.
//!
//! It has no contract of its own: the table that it is run on says what each row answers.
#![tactic(auto)]

mod client;
mod differing;
mod fault;
mod loads;
mod played;
mod replicas;

use mc_rows::{Answer, Words};
use std::alloc::Global;
use std::io;
use std::io::{BufWriter, Write};

/// What a row answers.
fn answered(alloc: Global, row: &str) -> Answer {
    let mut answer = Answer::new(alloc);
    let mut words = Words::new(alloc, row);
    match words.word() {
        "load" => loads::load_row(&mut words, &mut answer),
        "replicas" => replicas::replicas_row(&mut words, &mut answer),
        _ => words.fail(),
    }
    if words.are_bad() {
        drop(answer);
        return Answer::no_such_call(alloc);
    }
    answer
}

/// Writes a row, and what it answers where it is a call.
fn write_row<W: Write>(alloc: Global, row: &str, out: &mut W) -> io::Result<()> {
    if row.is_empty() || row.starts_with('#') {
        return writeln!(out, "{row}");
    }
    let answer = answered(alloc, row);
    let done = writeln!(out, "{row} -> {answer}");
    drop(answer);
    done
}

/// Writes the rows of a table.
fn write_rows<W: Write>(alloc: Global, table: &str, out: &mut W) -> io::Result<()> {
    for row in table.trim_end_matches('\n').split('\n') {
        write_row(alloc, row, out)?;
    }
    out.flush()
}

fn main(rt: HostRuntime) -> io::Result<()> {
    let alloc = rt.alloc();
    let table = io::read_to_string(alloc, rt.reader())?;
    let mut out = BufWriter::new(alloc, io::writer(&rt))?;
    write_rows(alloc, table.as_str(), &mut out)
}
