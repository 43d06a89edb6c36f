//! Frames and what waits to be sent: `frame BYTES` writes one, `splitter STEP ..` and `pieces SIZE
//! BYTES` cut a stream, and `outbox STEP ..` works on what is to be sent.

use bytes::Bytes;
use mc_bytes::NoMemory;
use mc_frame::{FrameFault, Outbox, Splitter, Take, write_frame};
use mc_rows::{Answer, Words};

/// Writes a frame with this payload.
pub fn write(words: &mut Words<'_>, answer: &mut Answer) {
    let payload = words.bytes();
    if payload.is_empty() || payload.len() > 2_097_151 {
        words.fail();
    } else {
        let mut out = Vec::new(words.alloc);
        answer.needs(write_frame(&payload, &mut out));
        answer.bytes(&out);
    }
}

/// Puts what a splitter answered, and says whether that is a frame.
fn put_take(take: &Take, answer: &mut Answer) -> bool {
    answer.comma();
    match take {
        Take::Frame(frame) => {
            answer.bytes(frame.as_slice());
            true
        }
        Take::More => {
            answer.word("more");
            false
        }
        Take::Bad(fault) => {
            put_fault(*fault, answer);
            false
        }
    }
}

/// Puts why a stream can't be cut any further, and how many of its bytes stand before that.
fn put_fault(fault: FrameFault, answer: &mut Answer) {
    let (name, at) = match fault {
        FrameFault::LongLength(at) => ("LongLength", at),
        FrameFault::ZeroLength(at) => ("ZeroLength", at),
    };
    answer.word(name);
    answer.word("at");
    answer.word(at);
}

/// Takes once, and says whether that was a frame.
fn take(splitter: &mut Splitter, answer: &mut Answer) -> bool {
    match splitter.take() {
        Ok(take) => {
            let is_frame = put_take(&take, answer);
            drop(take);
            is_frame
        }
        Err(NoMemory) => {
            answer.lose();
            false
        }
    }
}

/// Takes the frames that are there, up to what is none.
fn take_all(splitter: &mut Splitter, answer: &mut Answer) {
    let mut is_frame = true;
    for _ in 0..200 {
        if is_frame {
            is_frame = take(splitter, answer);
        }
    }
}

/// Feeds bytes, or takes what is there.
pub fn split(words: &mut Words<'_>, answer: &mut Answer) {
    let mut splitter = Splitter::new(words.alloc);
    for _ in 0..64 {
        if words.is_more() {
            split_step(&mut splitter, words, answer);
        }
    }
    drop(splitter);
}

/// Feeds the next bytes, or takes one frame or all.
fn split_step(splitter: &mut Splitter, words: &mut Words<'_>, answer: &mut Answer) {
    match words.word() {
        "feed" => {
            put_fed(splitter.feed(&words.bytes()), answer);
            answer.word("held");
            answer.word(splitter.len());
        }
        "take" => {
            let _ = take(splitter, answer);
        }
        "all" => take_all(splitter, answer),
        _ => words.fail(),
    }
}

/// Puts how many bytes were fed.
fn put_fed(fed: Result<usize, NoMemory>, answer: &mut Answer) {
    match fed {
        Ok(count) => {
            answer.comma();
            answer.word("fed");
            answer.word(count);
        }
        Err(NoMemory) => answer.lose(),
    }
}

/// Feeds a stream in pieces of one size, and takes all frames behind each, and then what is there.
pub fn pieces(words: &mut Words<'_>, answer: &mut Answer) {
    let size = words.number::<usize>();
    let stream = words.bytes();
    let mut splitter = Splitter::new(words.alloc);
    for piece in stream.chunks(size.max(1)) {
        answer.needs(splitter.feed(piece));
        take_frames(&mut splitter, answer);
    }
    let _ = take(&mut splitter, answer);
    drop(splitter);
}

/// Takes the frames that are there, and says nothing where there are no more.
fn take_frames(splitter: &mut Splitter, answer: &mut Answer) {
    for _ in 0..20 {
        match splitter.take() {
            Ok(take) => {
                put_frame(&take, answer);
                drop(take);
            }
            Err(NoMemory) => answer.lose(),
        }
    }
}

/// Puts a frame, where it is one.
fn put_frame(take: &Take, answer: &mut Answer) {
    if let Take::Frame(frame) = take {
        answer.comma();
        answer.bytes(frame.as_slice());
    }
}

/// Pushes pieces, lets go of bytes, or says what is in front and how much is held.
pub fn outbox(words: &mut Words<'_>, answer: &mut Answer) {
    let mut outbox = Outbox::new(words.alloc);
    for _ in 0..64 {
        if words.is_more() {
            outbox_step(&mut outbox, words, answer);
        }
    }
    drop(outbox);
}

/// The next step with an outbox.
fn outbox_step(outbox: &mut Outbox, words: &mut Words<'_>, answer: &mut Answer) {
    match words.word() {
        "push" => push(outbox, words, answer),
        "took" => took(outbox, words),
        "front" => {
            answer.comma();
            answer.bytes(outbox.front());
        }
        "len" => {
            answer.comma();
            answer.word(outbox.len());
        }
        _ => words.fail(),
    }
}

/// Pushes the next bytes.
fn push(outbox: &mut Outbox, words: &mut Words<'_>, answer: &mut Answer) {
    match Bytes::copy_from_slice(words.alloc, &words.bytes()) {
        Ok(piece) => push_piece(outbox, piece, words, answer),
        Err(_) => answer.lose(),
    }
}

/// Pushes a piece, where neither it nor what is held is long.
fn push_piece(outbox: &mut Outbox, piece: Bytes, words: &mut Words<'_>, answer: &mut Answer) {
    if piece.len() <= 1_000_000 && outbox.len() <= 1_000_000 {
        answer.needs(outbox.push(piece));
    } else {
        drop(piece);
        words.fail();
    }
}

/// Lets go of the next number of bytes.
fn took(outbox: &mut Outbox, words: &mut Words<'_>) {
    let count = words.number::<usize>();
    if count <= outbox.len() {
        outbox.took(count);
    } else {
        words.fail();
    }
}
