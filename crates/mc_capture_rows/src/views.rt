//! Views: `view BYTES` shows a capture and answers its lines, each ended by a bar, and how that
//! ended. With `read N` the source fails at read N, with `write N` the sink at write N, counted
//! from 0.

use mc_capture::{CaptureEnd, view};
use mc_rows::{Answer, Words};
use mc_wire::{MemorySink, MemorySource};

/// Shows a capture.
pub fn view_row(words: &mut Words<'_>, answer: &mut Answer) {
    let bytes = words.bytes();
    let reads = fails("read", words, answer);
    let writes = fails("write", words, answer);
    let mut source = MemorySource::new(bytes, reads);
    let mut sink = MemorySink::new(words.alloc, writes);
    let shown = view(words.alloc, &mut source, &mut sink);
    answer.shown(sink.held().unwrap_or(&[]));
    put_end(shown, answer);
    drop(source);
    drop(sink);
}

/// The call that fails, where the row names one.
pub fn fails(name: &str, words: &mut Words<'_>, answer: &mut Answer) -> Vec<u64> {
    let mut calls = Vec::new(words.alloc);
    if words.is_next(name) {
        answer.needs(calls.push(words.number()));
    }
    calls
}

/// Puts how it ended.
pub fn put_end(shown: Result<(), CaptureEnd>, answer: &mut Answer) {
    match shown {
        Ok(()) => answer.word("ok"),
        Err(CaptureEnd::Bad(fault)) => {
            answer.word("bad at");
            answer.word(fault.at);
            answer.name(fault.kind);
        }
        Err(CaptureEnd::NoMemory) => answer.lose(),
        Err(end) => answer.name(end),
    }
}
