//! Loads: `load CLIENTS TICKS` tells a load and answers its line, ended by a bar, and how telling
//! it ended. With `write N` the sink fails at write N, counted from 0.

use mc_measure::{LoadEnd, load};
use mc_rows::{Answer, Words};
use mc_wire::MemorySink;

/// Tells a load.
pub fn load_row(words: &mut Words<'_>, answer: &mut Answer) {
    let clients = words.number::<u32>();
    let ticks = words.number::<u32>();
    if clients == 0 || clients > 50 || ticks == 0 || ticks > 10_000 {
        return words.fail();
    }
    let mut sink = MemorySink::new(words.alloc, fails(words, answer));
    let told = load(words.alloc, clients, ticks, &mut sink);
    answer.shown(sink.held().unwrap_or(&[]));
    put_end(told, answer);
    drop(sink);
}

/// The write that fails, where the row names one.
fn fails(words: &mut Words<'_>, answer: &mut Answer) -> Vec<u64> {
    let mut calls = Vec::new(words.alloc);
    if words.is_next("write") {
        answer.needs(calls.push(words.number()));
    }
    calls
}

/// Puts how telling a load ended.
fn put_end(told: Result<(), LoadEnd>, answer: &mut Answer) {
    match told {
        Ok(()) => answer.word("ok"),
        Err(LoadEnd::NoMemory) => answer.lose(),
        Err(end) => answer.name(end),
    }
}
