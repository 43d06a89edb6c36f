//! Lobbies in memory, as words: `EVENTS` is `-` or entries with commas between them, `joined=K`,
//! `came=K:BYTES`, `left=K` and `ticked`; `TROUBLES` is `-` or some of `listen`, `next=I`,
//! `stall=I`, `break=I`, `short=I:N`, and `shorts=COUNT:N` for each write below a count. A log is
//! put as such entries, with a comma in front of each.

use mc_bytes::Octets;
use mc_rows::{Answer, Words, bytes_of};
use mc_wire::{LogEntry, MemoryLobby, Trouble};
use std::alloc::Global;

/// The most bytes of an entry that are put one by one.
const PLAIN: usize = 400;

/// The lobby that the next two words say, if it is one.
pub fn lobby_in(words: &mut Words<'_>, answer: &mut Answer) -> Option<MemoryLobby> {
    let events = events_in(words, answer);
    let troubles = troubles_in(words, answer);
    MemoryLobby::new(words.alloc, events, troubles)
}

/// The events of the next word.
fn events_in(words: &mut Words<'_>, answer: &mut Answer) -> Vec<LogEntry> {
    let mut events = Vec::new(words.alloc);
    for text in words.word().split(',') {
        match event_of(words.alloc, text) {
            Some(event) => answer.needs(events.push(event)),
            None if text == "-" => {}
            None => words.fail(),
        }
    }
    events
}

/// The event that a text names.
fn event_of(alloc: Global, text: &str) -> Option<LogEntry> {
    let (name, rest) = text.split_once('=').unwrap_or((text, "0"));
    let (number, bytes) = rest.split_once(':').unwrap_or((rest, "-"));
    let k = number.parse::<u32>().ok()?;
    match name {
        "joined" => Some(LogEntry::Joined(k)),
        "came" => Some(LogEntry::Came(k, Octets::from_vec(bytes_of(alloc, bytes)?))),
        "left" => Some(LogEntry::Left(k)),
        "ticked" => Some(LogEntry::Ticked),
        _ => None,
    }
}

/// The troubles of the next word.
fn troubles_in(words: &mut Words<'_>, answer: &mut Answer) -> Vec<Trouble> {
    let mut troubles = Vec::new(words.alloc);
    for text in words.word().split(',') {
        if text != "-" && push_trouble(&mut troubles, text).is_none() {
            words.fail();
        }
    }
    troubles
}

/// Appends the troubles that a text names.
fn push_trouble(troubles: &mut Vec<Trouble>, text: &str) -> Option<()> {
    // Dear to prove, for six arms with a call each behind two `?`.
    let (name, rest) = text.split_once('=').unwrap_or((text, "0"));
    let (number, size) = rest.split_once(':').unwrap_or((rest, "0"));
    let i = number.parse::<u64>().ok()?;
    let n = size.parse::<usize>().ok()?;
    match name {
        "listen" => troubles.push(Trouble::FailListen).ok(),
        "next" => troubles.push(Trouble::FailNext(i)).ok(),
        "stall" => troubles.push(Trouble::StallWrite(i)).ok(),
        "break" => troubles.push(Trouble::BreakWrite(i)).ok(),
        "short" => troubles.push(Trouble::ShortWrite(i, n)).ok(),
        "shorts" => push_shorts(troubles, i, n),
        _ => None,
    }
}

/// Appends that each write below a count takes so many bytes.
fn push_shorts(troubles: &mut Vec<Trouble>, count: u64, size: usize) -> Option<()> {
    for i in 0..count {
        troubles.push(Trouble::ShortWrite(i, size)).ok()?;
    }
    Some(())
}

/// Puts a log, where it is told.
pub fn put_log(log: Option<&[LogEntry]>, answer: &mut Answer) {
    match log {
        Some(entries) => {
            for entry in entries {
                answer.comma();
                put_entry(entry, answer);
            }
        }
        None => {
            answer.comma();
            answer.word("untold");
        }
    }
}

/// Puts an entry.
fn put_entry(entry: &LogEntry, answer: &mut Answer) {
    match entry {
        LogEntry::Joined(k) => put_named("joined", *k, answer),
        LogEntry::Came(k, bytes) => put_bytes("came", *k, bytes.as_slice(), answer),
        LogEntry::Left(k) => put_named("left", *k, answer),
        LogEntry::Ticked => answer.word("ticked"),
        LogEntry::Ended => answer.word("ended"),
        LogEntry::Put(k, bytes) => put_bytes("put", *k, bytes.as_slice(), answer),
        LogEntry::Stalled(k) => put_named("stalled", *k, answer),
        LogEntry::Broke(k) => put_named("broke", *k, answer),
        LogEntry::Closed(k) => put_named("closed", *k, answer),
    }
}

/// Puts a name and the number of a connection.
fn put_named(name: &str, k: u32, answer: &mut Answer) {
    answer.word(name);
    answer.word(k);
}

/// Puts a name, the number of a connection, and bytes or how many they are.
fn put_bytes(name: &str, k: u32, bytes: &[u8], answer: &mut Answer) {
    put_named(name, k, answer);
    if bytes.len() <= PLAIN {
        answer.hex(bytes);
    } else {
        answer.word(bytes.len());
        answer.word("bytes");
    }
}
