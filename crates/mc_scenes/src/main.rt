//! A table of rows: each names a call of the crates from the definitions up to the commands and
//! what it is given, and is repeated with what the call answers. It stands on those crates and on
//! `hex`.
//!
//! It has no contract of its own: the table that it is run on says what each row answers.
#![tactic(auto)]

mod causes;
mod commands;
mod drives;
mod flushes;
mod frames;
mod guests;
mod links;
mod lists;
mod loads;
mod lobbies;
mod minds;
mod mixes;
mod pieces;
mod scripts;
mod servers;
mod sessions;
mod terrains;
mod things;
mod untold;
mod views;

use mc_rows::{Answer, Words, look_up};
use std::alloc::Global;
use std::io;
use std::io::{BufWriter, Write};

/// What a row calls.
#[derive(Clone, Copy)]
enum Call {
    Run,
    Failing,
    Minds,
    Lobby,
    Bot,
    Mixes,
    Script,
    Session,
    Uuid,
    Chat,
    Flush,
    List,
    Place,
    Server,
    Drive,
    Puts,
    Untold,
    Cuts,
    Pieces,
    Size,
    Column,
    View,
}

/// The calls by their words.
const CALLS: [(&str, Call); 22] = [
    ("run", Call::Run),
    ("failing", Call::Failing),
    ("minds", Call::Minds),
    ("lobby", Call::Lobby),
    ("bot", Call::Bot),
    ("mixes", Call::Mixes),
    ("script", Call::Script),
    ("session", Call::Session),
    ("uuid", Call::Uuid),
    ("chat", Call::Chat),
    ("flush", Call::Flush),
    ("list", Call::List),
    ("place", Call::Place),
    ("server", Call::Server),
    ("drive", Call::Drive),
    ("puts", Call::Puts),
    ("untold", Call::Untold),
    ("cuts", Call::Cuts),
    ("pieces", Call::Pieces),
    ("size", Call::Size),
    ("column", Call::Column),
    ("view", Call::View),
];

/// The call that a word names.
fn call_of(name: &str) -> Option<Call> {
    look_up(&CALLS, name)
}

/// Answers a call.
fn answer_call(call: Call, words: &mut Words<'_>, answer: &mut Answer) {
    // Dear to prove, for an arm for each of 22 calls.
    match call {
        Call::Run => commands::run_steady(words, answer),
        Call::Failing => commands::run_failing(words, answer),
        Call::Minds => minds::minds(words, answer),
        Call::Lobby => commands::run_lobby(words, answer),
        Call::Bot => commands::run_bot(words, answer),
        Call::Mixes => mixes::mixes(words, answer),
        Call::Script => scripts::script(words, answer),
        Call::Session => sessions::session(words, answer),
        Call::Uuid => sessions::uuid(words, answer),
        Call::Chat => sessions::chat(words, answer),
        Call::Flush => flushes::client(words, answer),
        Call::List => lists::list(words, answer),
        Call::Place => lists::place(words, answer),
        Call::Server => servers::server(words, answer),
        Call::Drive => drives::log(words, answer),
        Call::Puts => drives::puts(words, answer),
        Call::Untold => drives::untold(words, answer),
        Call::Cuts => pieces::cuts(words, answer),
        Call::Pieces => pieces::pieces(words, answer),
        Call::Size => views::size(words, answer),
        Call::Column => views::column(words, answer),
        Call::View => views::view(words, answer),
    }
}

/// What a row answers.
fn answered(alloc: Global, row: &str) -> Answer {
    let mut answer = Answer::new(alloc);
    let mut words = Words::new(alloc, row);
    match call_of(words.word()) {
        Some(call) => answer_call(call, &mut words, &mut answer),
        None => words.fail(),
    }
    if words.are_bad() {
        return Answer::no_such_call(alloc);
    }
    answer
}

/// Writes a row, and what it answers where it is a call.
fn write_row<W: Write>(alloc: Global, row: &str, out: &mut W) -> io::Result<()> {
    if row.is_empty() || row.starts_with('#') {
        return writeln!(out, "{row}");
    }
    let answer = answered(alloc, row);
    let done = writeln!(out, "{row} -> {answer}");
    drop(answer);
    done
}

/// Writes the rows of a table.
fn write_rows<W: Write>(alloc: Global, table: &str, out: &mut W) -> io::Result<()> {
    for row in table.trim_end_matches('\n').split('\n') {
        write_row(alloc, row, out)?;
    }
    out.flush()
}

fn main(rt: HostRuntime) -> io::Result<()> {
    let alloc = rt.alloc();
    let table = io::read_to_string(alloc, rt.reader())?;
    let mut out = BufWriter::new(alloc, io::writer(&rt))?;
    write_rows(alloc, table.as_str(), &mut out)
}
