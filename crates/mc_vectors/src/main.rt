//! A table of rows: each names a call of the lowest crates or of a client's world and what it is
//! given, and is repeated with what the call answers. It stands on those crates and on `bytes`.
//!
//! It has no contract of its own: the table that it is run on says what each row answers.
#![tactic(auto)]

mod columns;
mod devices;
mod down;
mod entities;
mod fields;
mod frames;
mod lands;
mod links;
mod lobbies;
mod minds;
mod nbt;
mod packets;
mod parts;
mod replica;
mod slots;
mod up;
mod views;
mod windows;

use lands::Ground;
use mc_bytes::NoMemory;
use mc_column::Column;
use mc_entities::Folk;
use mc_land::Terrain;
use mc_replica::Replica;
use mc_rows::{Answer, Words, look_up};
use mc_view::Tracker;
use std::alloc::Global;
use std::io;
use std::io::{BufWriter, Write};

/// What rows change, for the rows after them.
#[derive(Drop)]
struct Bench {
    column: Column,
    ground: Ground,
    folk: Folk,
    tracker: Tracker,
    replica: Replica,
}

/// A column of air, the flat land, a folk of nobody, a client that was told of nobody, and one that
/// was sent nothing.
fn new_bench(alloc: Global) -> Result<Bench, NoMemory> {
    Ok(Bench {
        column: Column::empty(alloc, 0)?,
        ground: Ground::new(alloc, Terrain::Flat),
        folk: Folk::new(alloc),
        tracker: Tracker::new(alloc),
        replica: Replica::new(alloc),
    })
}

/// A call of the lowest crates that is no packet and no field.
#[derive(Clone, Copy)]
enum Call {
    Nbt,
    Same,
    Make,
    Slot,
    Pile,
    Chest,
    Window,
    Frame,
    Splitter,
    Pieces,
    Outbox,
    Source,
    Sink,
    Lobby,
    Link,
    Body,
    Column,
    Land,
    Terrain,
    Folk,
    Minds,
    View,
    Form,
    Tracker,
    Replica,
}

/// The calls by their words.
const CALLS: [(&str, Call); 25] = [
    ("nbt", Call::Nbt),
    ("same", Call::Same),
    ("make", Call::Make),
    ("slot", Call::Slot),
    ("pile", Call::Pile),
    ("chest", Call::Chest),
    ("window", Call::Window),
    ("frame", Call::Frame),
    ("splitter", Call::Splitter),
    ("pieces", Call::Pieces),
    ("outbox", Call::Outbox),
    ("source", Call::Source),
    ("sink", Call::Sink),
    ("lobby", Call::Lobby),
    ("link", Call::Link),
    ("body", Call::Body),
    ("column", Call::Column),
    ("land", Call::Land),
    ("terrain", Call::Terrain),
    ("folk", Call::Folk),
    ("minds", Call::Minds),
    ("view", Call::View),
    ("form", Call::Form),
    ("tracker", Call::Tracker),
    ("replica", Call::Replica),
];

/// The call that a word names.
fn call_of(name: &str) -> Option<Call> {
    look_up(&CALLS, name)
}

/// Answers a call.
/// Dear to prove: an arm for each of twenty-four calls.
fn answer_call(bench: &mut Bench, call: Call, words: &mut Words<'_>, answer: &mut Answer) {
    match call {
        Call::Nbt => nbt::read(words, answer),
        Call::Same => nbt::compare(words, answer),
        Call::Make => nbt::make(words, answer),
        Call::Slot => slots::read(words, answer),
        Call::Pile => slots::pile(words, answer),
        Call::Chest => slots::chest(words, answer),
        Call::Window => windows::window(words, answer),
        Call::Frame => frames::write(words, answer),
        Call::Splitter => frames::split(words, answer),
        Call::Pieces => frames::pieces(words, answer),
        Call::Outbox => frames::outbox(words, answer),
        Call::Source => devices::source(words, answer),
        Call::Sink => devices::sink(words, answer),
        Call::Lobby => lobbies::lobby(words, answer),
        Call::Link => links::link(words, answer),
        Call::Body => columns::body(words, answer),
        Call::Column => columns::column(&mut bench.column, words, answer),
        Call::Land => lands::land(&mut bench.ground, words, answer),
        Call::Terrain => lands::terrain(words, answer),
        Call::Folk => entities::folk(&mut bench.folk, words, answer),
        Call::Minds => minds::minds(&mut bench.folk, words, answer),
        Call::View => views::view(words, answer),
        Call::Form => views::form(words, answer),
        Call::Tracker => views::tracker(&mut bench.tracker, words, answer),
        Call::Replica => replica::replica(&mut bench.replica, words, answer),
    }
}

/// Answers a row of a call, a packet or a field.
fn call_or_other(bench: &mut Bench, name: &str, words: &mut Words<'_>, answer: &mut Answer) {
    match call_of(name) {
        Some(named) => answer_call(bench, named, words, answer),
        None => packet_or_field(name, words, answer),
    }
}

/// Answers a row of a packet or of a field.
fn packet_or_field(name: &str, words: &mut Words<'_>, answer: &mut Answer) {
    match packets::packet_of(name) {
        Some(named) => packets::answer_packet(named, words, answer),
        None => fields::field(name, words, answer),
    }
}

/// What a row answers.
fn answered(bench: &mut Bench, alloc: Global, row: &str) -> Answer {
    let mut answer = Answer::new(alloc);
    let mut words = Words::new(alloc, row);
    let name = words.word();
    call_or_other(bench, name, &mut words, &mut answer);
    if words.are_bad() {
        drop(answer);
        return Answer::no_such_call(alloc);
    }
    answer
}

/// Writes a row, and what it answers where it is a call.
fn write_row<W: Write>(alloc: Global, bench: &mut Bench, row: &str, out: &mut W) -> io::Result<()> {
    if row.is_empty() || row.starts_with('#') {
        return writeln!(out, "{row}");
    }
    let answer = answered(bench, alloc, row);
    let done = writeln!(out, "{row} -> {answer}");
    drop(answer);
    done
}

/// Writes the rows of a table.
fn write_rows<W: Write>(
    alloc: Global,
    bench: &mut Bench,
    table: &str,
    out: &mut W,
) -> io::Result<()> {
    for row in table.trim_end_matches('\n').split('\n') {
        write_row(alloc, bench, row, out)?;
    }
    out.flush()
}

fn main(rt: HostRuntime) -> io::Result<()> {
    let alloc = rt.alloc();
    let table = io::read_to_string(alloc, rt.reader())?;
    let mut out = BufWriter::new(alloc, io::writer(&rt))?;
    match new_bench(alloc) {
        Ok(mut bench) => {
            let done = write_rows(alloc, &mut bench, table.as_str(), &mut out);
            drop(bench);
            done
        }
        Err(NoMemory) => writeln!(out, "{NoMemory}"),
    }
}
