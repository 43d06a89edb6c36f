//! Plays over a link in memory: `play BYTES TROUBLES PORT PATIENCE < TEXT` plays a script over a
//! link that gives the bytes, and answers how it ended, what the link took, and the dump. `TROUBLES`
//! is `-` or some of `connect`, `read=I`, `write=I` and `quiet=I`. `cuts BYTES PORT < TEXT` plays it
//! over the first 0, 1, 2 .. of the bytes, and answers how it ended, from how many bytes on.

use mc_bot::{BotFault, Script, play};
use mc_rows::{Answer, Words};
use mc_wire::{LinkTrouble, MemoryLink, MemorySink};
use std::alloc::Global;

/// Plays a script.
pub fn play_row(words: &mut Words<'_>, answer: &mut Answer) {
    let bytes = words.bytes();
    let troubles = troubles(words, answer);
    let mut link = MemoryLink::new(words.alloc, bytes, troubles);
    let mut sink = MemorySink::new(words.alloc, Vec::new(words.alloc));
    let port = words.number();
    let patience = words.number();
    if let Some(script) = script_of(words) {
        let played = play(words.alloc, &script, port, patience, &mut link, &mut sink);
        drop(script);
        put_end(played, answer);
        put_taken(&link, answer);
        put_dump(&sink, answer);
    }
    drop(link);
    drop(sink);
}

/// Plays a script over each first part of some bytes.
pub fn cuts(words: &mut Words<'_>, answer: &mut Answer) {
    let bytes = words.bytes();
    let port = words.number();
    if let Some(script) = script_of(words) {
        let mut last = "";
        for count in 0..=bytes.len() {
            let (front, _) = bytes.split_at(count);
            let name = cut_end(words.alloc, front, port, &script, answer);
            if name != last {
                answer.comma();
                answer.word(count);
                answer.word(name);
            }
            last = name;
        }
        drop(script);
    }
}

/// How a script ends over some bytes.
fn cut_end(
    alloc: Global,
    bytes: &[u8],
    port: u16,
    script: &Script,
    answer: &mut Answer,
) -> &'static str {
    let mut given = Vec::new(alloc);
    answer.needs(given.extend_from_slice(bytes));
    let mut link = MemoryLink::new(alloc, given, Vec::new(alloc));
    let mut sink = MemorySink::new(alloc, Vec::new(alloc));
    let played = play(alloc, script, port, 1, &mut link, &mut sink);
    drop(link);
    drop(sink);
    let name = name_of(&played);
    drop(played);
    name
}

/// The name of an end.
fn name_of(played: &Result<(), BotFault>) -> &'static str {
    match played {
        Ok(()) => "done",
        Err(BotFault::Link) => "link",
        Err(BotFault::Write) => "write",
        Err(BotFault::Closed(_)) => "closed",
        Err(BotFault::Frame(_)) => "frame",
        Err(BotFault::Packet(..)) => "packet",
        Err(BotFault::Body(_)) => "body",
        Err(BotFault::Patience(_)) => "patience",
        Err(BotFault::Expect { .. }) => "expect",
        Err(BotFault::NoMemory) => "memory",
    }
}

/// The script that is the rest of a row; the row is a bad one where that is none.
fn script_of(words: &mut Words<'_>) -> Option<Script> {
    let rest = words.rest();
    let text = words.escaped(rest.strip_prefix("< ").unwrap_or(""));
    let script = Script::read(words.alloc, &text).ok();
    if script.is_none() {
        words.fail();
    }
    script
}

/// Puts how a play ended.
fn put_end(played: Result<(), BotFault>, answer: &mut Answer) {
    match played {
        Ok(()) => answer.word("done"),
        Err(fault) => answer.word(fault),
    }
}

/// Puts what a link took.
fn put_taken(link: &MemoryLink, answer: &mut Answer) {
    answer.comma();
    answer.word("took");
    match link.took() {
        Some(taken) => answer.bytes(taken),
        None => answer.lose(),
    }
}

/// Puts what a sink got, if it got something.
fn put_dump(sink: &MemorySink, answer: &mut Answer) {
    match sink.held() {
        Some([]) => {}
        Some(text) => {
            answer.comma();
            answer.word("out");
            answer.shown(text);
        }
        None => answer.lose(),
    }
}

/// The troubles of the next word.
fn troubles(words: &mut Words<'_>, answer: &mut Answer) -> Vec<LinkTrouble> {
    let mut troubles = Vec::new(words.alloc);
    for text in words.word().split(',') {
        match trouble_of(text) {
            Some(trouble) => answer.needs(troubles.push(trouble)),
            None if text == "-" => {}
            None => words.fail(),
        }
    }
    troubles
}

/// The trouble that a text names.
fn trouble_of(text: &str) -> Option<LinkTrouble> {
    let (name, rest) = text.split_once('=').unwrap_or((text, "0"));
    let i = rest.parse::<u64>().ok()?;
    match name {
        "connect" => Some(LinkTrouble::FailConnect),
        "read" => Some(LinkTrouble::FailRead(i)),
        "write" => Some(LinkTrouble::FailWrite(i)),
        "quiet" => Some(LinkTrouble::QuietRead(i)),
        _ => None,
    }
}
