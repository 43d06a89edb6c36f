//! Shows: `show K BYTES` shows the world of client K out of a capture, and answers its lines, each
//! ended by a bar, and how that ended. Devices fail as those of a view do.

use crate::views::{fails, put_end};
use mc_rows::{Answer, Words};
use mc_show::show;
use mc_wire::{MemorySink, MemorySource};

/// Shows a client's world out of a capture.
pub fn show_row(words: &mut Words<'_>, answer: &mut Answer) {
    let client: u32 = words.number();
    let bytes = words.bytes();
    let reads = fails("read", words, answer);
    let writes = fails("write", words, answer);
    let mut source = MemorySource::new(bytes, reads);
    let mut sink = MemorySink::new(words.alloc, writes);
    let shown = show(words.alloc, client, &mut source, &mut sink);
    answer.shown(sink.held().unwrap_or(&[]));
    put_end(shown, answer);
    drop(source);
    drop(sink);
}
