//! Links to a server in memory, as words: `BYTES` are those that it gives, and `TROUBLES` is `-` or
//! some of `connect`, `read=I`, `write=I` and `quiet=I`, with commas between them; `quiets=I:N` is
//! `quiet` for N reads from number I on.

use mc_rows::{Answer, Words};
use mc_wire::{LinkTrouble, MemoryLink};
use std::alloc::Global;

/// The link that the next two words say.
pub fn link_in(words: &mut Words<'_>, answer: &mut Answer) -> MemoryLink {
    let bytes = words.bytes();
    let troubles = troubles_in(words, answer);
    MemoryLink::new(words.alloc, bytes, troubles)
}

/// A link that gives nothing.
pub fn empty_link(alloc: Global) -> MemoryLink {
    MemoryLink::new(alloc, Vec::new(alloc), Vec::new(alloc))
}

/// The troubles of the next word.
fn troubles_in(words: &mut Words<'_>, answer: &mut Answer) -> Vec<LinkTrouble> {
    let mut troubles = Vec::new(words.alloc);
    for text in words.word().split(',') {
        if text != "-" && push_trouble(&mut troubles, text, answer).is_none() {
            words.fail();
        }
    }
    troubles
}

/// Appends the troubles that a text names.
fn push_trouble(troubles: &mut Vec<LinkTrouble>, text: &str, answer: &mut Answer) -> Option<()> {
    let (name, rest) = text.split_once('=').unwrap_or((text, "0"));
    let (number, count) = rest.split_once(':').unwrap_or((rest, "1"));
    let first = number.parse::<u64>().ok()?;
    let count = count.parse::<u64>().ok()?;
    for i in 0..count {
        answer.needs(troubles.push(trouble_of(name, first.saturating_add(i))?));
    }
    Some(())
}

/// The trouble of a call with a number.
fn trouble_of(name: &str, i: u64) -> Option<LinkTrouble> {
    match name {
        "connect" => Some(LinkTrouble::FailConnect),
        "read" => Some(LinkTrouble::FailRead(i)),
        "write" => Some(LinkTrouble::FailWrite(i)),
        "quiet" | "quiets" => Some(LinkTrouble::QuietRead(i)),
        _ => None,
    }
}

/// Puts what a link took, where it tells it.
pub fn put_taken(taken: Option<&[u8]>, answer: &mut Answer) {
    answer.comma();
    match taken {
        Some(bytes) => answer.hex(bytes),
        None => answer.word("untold"),
    }
}
