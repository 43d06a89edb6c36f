//! Frames of a server: each in hex, but columns by their places, with one word for those of a row.

use crate::loads::{Kept, Loads};
use mc_bytes::Cursor;
use mc_down::read_down;
use mc_fields::take_varint;
use mc_packets::Down;
use mc_rows::Answer;

/// A frame with its length, and without it.
#[derive(Clone, Copy)]
struct Frame<'a> {
    whole: &'a [u8],
    payload: &'a [u8],
}

/// The next frame of some bytes. None where there is none.
fn next_frame<'a>(cursor: &mut Cursor<'a>) -> Option<Frame<'a>> {
    let before = cursor.rest();
    let size = take_varint(cursor).ok()?;
    let len = usize::try_from(size).ok()?;
    let payload = cursor.take(len).ok()?;
    let count = before.len().saturating_sub(cursor.rest().len());
    let whole = before.get(..count)?;
    Some(Frame { whole, payload })
}

/// The column that a packet loads, whose frame has so many bytes, where it loads one.
fn load_in(packet: &Down, length: usize) -> Option<Loads> {
    match packet {
        Down::Chunk {
            cx,
            cz,
            ground_up: true,
            mask,
            ..
        } if *mask != 0 => Some(Loads::one(*cx, *cz, *mask, length)),
        _ => None,
    }
}

/// The column that a frame loads, where it loads one.
fn load_of(frame: &Frame<'_>, answer: &Answer) -> Option<Loads> {
    let packet = read_down(answer.alloc(), frame.payload).ok()?;
    let load = load_in(&packet, frame.whole.len());
    drop(packet);
    load
}

/// Puts a frame behind the columns that were kept, or keeps its column.
fn put_frame(frame: &Frame<'_>, kept: &mut Kept, answer: &mut Answer) {
    match load_of(frame, answer) {
        Some(next) => kept.add(next, answer),
        None => {
            kept.end(answer);
            answer.hex(frame.whole);
        }
    }
}

/// Puts the frames in some bytes, and what is left behind them.
pub fn put_frames(bytes: &[u8], answer: &mut Answer) {
    let mut cursor = Cursor::new(bytes);
    let mut kept = Kept::new();
    for _ in 0..1000 {
        if let Some(frame) = next_frame(&mut cursor) {
            put_frame(&frame, &mut kept, answer);
        }
    }
    kept.end(answer);
    if !cursor.rest().is_empty() {
        answer.word("and");
        answer.hex(cursor.rest());
    }
}
