//! Devices in memory: `source BYTES FAILS STEP ..` reads from one, and `sink FAILS STEP ..` writes
//! to one. `FAILS` is `steady` for a device that never fails, or `-` or the numbers of the calls
//! that fail, with commas between them.

use mc_rows::{Answer, Words};
use mc_wire::{
    Failed, InputError, MemorySink, MemorySource, Sink, Source, SteadySink, SteadySource,
    read_up_to, write_all,
};

/// The numbers of the next word.
fn fails(words: &mut Words<'_>, answer: &mut Answer) -> Vec<u64> {
    let mut fails = Vec::new(words.alloc);
    for number in words.word().split(',') {
        push_number(&mut fails, number, answer);
    }
    fails
}

/// Appends the number that a text is, where it is one.
fn push_number(numbers: &mut Vec<u64>, text: &str, answer: &mut Answer) {
    if let Ok(number) = text.parse::<u64>() {
        answer.needs(numbers.push(number));
    }
}

/// Reads from a source.
pub fn source(words: &mut Words<'_>, answer: &mut Answer) {
    let bytes = words.bytes();
    if words.is_next("steady") {
        let mut source = SteadySource::new(bytes);
        read_steps(&mut source, words, answer);
        put_held("left", Some(source.left()), answer);
        drop(source);
    } else {
        let mut source = MemorySource::new(bytes, fails(words, answer));
        read_steps(&mut source, words, answer);
        put_held("left", Some(source.left()), answer);
        drop(source);
    }
}

/// Reads into two bytes or up to a number of bytes, as many times as there are words.
fn read_steps<S: Source>(source: &mut S, words: &mut Words<'_>, answer: &mut Answer) {
    let mut room = [0; 2];
    for _ in 0..64 {
        if words.is_more() {
            answer.comma();
            read_step(source, &mut room, words, answer);
        }
    }
}

/// Reads into two bytes, or so many bytes as the next word says.
fn read_step<S: Source>(
    source: &mut S,
    room: &mut [u8; 2],
    words: &mut Words<'_>,
    answer: &mut Answer,
) {
    match words.word() {
        "read" => {
            put_count(source.read(room), answer);
            answer.bytes(room);
        }
        "up_to" => {
            let most: usize = words.number();
            put_read(read_up_to(words.alloc, source, most), answer);
        }
        _ => words.fail(),
    }
}

/// Puts what was read of a source.
fn put_read(read: Result<Vec<u8>, InputError>, answer: &mut Answer) {
    match read {
        Ok(bytes) => answer.bytes(&bytes),
        Err(InputError::Failed) => answer.word("failed"),
        Err(InputError::NoMemory) => answer.lose(),
    }
}

/// Puts how many bytes a device moved.
fn put_count(moved: Result<usize, Failed>, answer: &mut Answer) {
    match moved {
        Ok(count) => answer.word(count),
        Err(Failed) => answer.word("failed"),
    }
}

/// Puts what a device holds, where it tells it.
fn put_held(name: &str, held: Option<&[u8]>, answer: &mut Answer) {
    answer.comma();
    answer.word(name);
    match held {
        Some(bytes) => answer.bytes(bytes),
        None => answer.word("untold"),
    }
}

/// Writes to a sink.
pub fn sink(words: &mut Words<'_>, answer: &mut Answer) {
    if words.is_next("steady") {
        let mut sink = SteadySink::new(words.alloc);
        write_steps(&mut sink, words, answer);
        put_held("held", sink.held(), answer);
        drop(sink);
    } else {
        let fails = fails(words, answer);
        let mut sink = MemorySink::new(words.alloc, fails);
        write_steps(&mut sink, words, answer);
        put_held("held", sink.held(), answer);
        drop(sink);
    }
}

/// Writes pieces, each by one call or whole.
fn write_steps<S: Sink>(sink: &mut S, words: &mut Words<'_>, answer: &mut Answer) {
    for _ in 0..64 {
        if words.is_more() {
            answer.comma();
            write_step(sink, words, answer);
        }
    }
}

/// Writes a piece.
fn write_step<S: Sink>(sink: &mut S, words: &mut Words<'_>, answer: &mut Answer) {
    let call = words.word();
    let piece = words.bytes();
    match call {
        "write" if !piece.is_empty() => put_count(sink.write(&piece), answer),
        "all" => put_written(write_all(sink, &piece), answer),
        _ => words.fail(),
    }
}

/// Puts whether a whole piece was written.
fn put_written(written: Result<(), Failed>, answer: &mut Answer) {
    match written {
        Ok(()) => answer.word("whole"),
        Err(Failed) => answer.word("failed"),
    }
}
