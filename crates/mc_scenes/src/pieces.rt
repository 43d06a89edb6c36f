//! Bytes in pieces: `cuts BYTES` has them come in two pieces, to a server for each place of the
//! cut, and answers how many of these are owed the same, and what. `pieces BYTES SIZE ..` has them
//! come to a server for each size, and a tick, takes what is owed in pieces of that size, and
//! answers how many bytes that are and whether they are those of the first.

use crate::minds::Counted;
use crate::servers::{new_server, taken, ticks};
use mc_bytes::NoMemory;
use mc_land::Terrain;
use mc_rows::{Answer, Words};
use mc_server::{Input, Server};
use std::alloc::Global;

/// A server of flat land for two players, whose first connection says these two pieces.
fn told(alloc: Global, front: &[u8], rest: &[u8]) -> Option<Server<Counted>> {
    let mut server = new_server(alloc, 2, 6, Terrain::Flat, Vec::new(alloc))?;
    if say(&mut server, front, rest).is_err() {
        drop(server);
        return None;
    }
    Some(server)
}

/// The first connection joins, and says these two pieces.
fn say(server: &mut Server<Counted>, front: &[u8], rest: &[u8]) -> Result<(), NoMemory> {
    server.event(Input::Join(0))?;
    server.event(Input::Bytes(0, front))?;
    server.event(Input::Bytes(0, rest))
}

/// What is owed to who says some bytes in two pieces, of which the first has so many.
fn owed_of_cut(alloc: Global, request_of: &[u8], at: usize) -> Option<Vec<u8>> {
    let (front, rest) = request_of.split_at_checked(at)?;
    let mut server = told(alloc, front, rest)?;
    let owed = taken(alloc, &mut server, 0, 100);
    drop(server);
    owed.ok()
}

/// Whether there are two lists of bytes, and they are the same.
fn are_same(one: &Option<Vec<u8>>, other: &Option<Vec<u8>>) -> bool {
    match (one, other) {
        (Some(one), Some(other)) => one.as_slice() == other.as_slice(),
        _ => false,
    }
}

/// Cuts bytes at each place.
pub fn cuts(words: &mut Words<'_>, answer: &mut Answer) {
    let request_of = words.bytes();
    let whole = owed_of_cut(words.alloc, &request_of, 0);
    let mut same = 0u32;
    for at in 0..=request_of.len() {
        if are_same(&owed_of_cut(words.alloc, &request_of, at), &whole) {
            same = same.saturating_add(1);
        }
    }
    answer.word(same);
    answer.word("times");
    answer.shown(&whole.unwrap_or(Vec::new(words.alloc)));
}

/// What is owed to who says some bytes, after a tick, taken so many bytes at a time.
fn owed_of_tick(alloc: Global, request_of: &[u8], size: usize) -> Option<Vec<u8>> {
    let mut server = told(alloc, request_of, &[])?;
    let owed = ticked(alloc, &mut server, size);
    drop(server);
    owed.ok()
}

/// A tick comes, and what is owed then is taken so many bytes at a time.
fn ticked(alloc: Global, server: &mut Server<Counted>, size: usize) -> Result<Vec<u8>, NoMemory> {
    ticks(server, 1)?;
    taken(alloc, server, 0, size)
}

/// Takes what is owed in pieces of each size.
pub fn pieces(words: &mut Words<'_>, answer: &mut Answer) {
    let request_of = words.bytes();
    let whole = owed_of_tick(words.alloc, &request_of, words.number());
    put_count(&whole, answer);
    for _ in 0..8 {
        if words.is_more() {
            let owed = owed_of_tick(words.alloc, &request_of, words.number());
            put_count(&owed, answer);
            answer.word(if are_same(&owed, &whole) {
                "the same"
            } else {
                "others"
            });
        }
    }
}

/// Puts how many bytes are owed.
fn put_count(owed: &Option<Vec<u8>>, answer: &mut Answer) {
    answer.comma();
    match owed {
        Some(owed) => answer.word(owed.len()),
        None => answer.word("none"),
    }
}
