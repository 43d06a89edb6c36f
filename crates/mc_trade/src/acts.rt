//! What a client does: `walk X Y Z` in 1/32 blocks, `dig X Y Z`, `drop one`, `drop all`,
//! `place X Y Z FACE`, `take PLACE`, `click WINDOW SLOT BUTTON NUMBER MODE PILE`,
//! `confirm WINDOW NUMBER` and `close WINDOW`.

use crate::pile::{NOTHING, pile_in, put_pile};
use mc_bytes::NoMemory;
use mc_fields::{pattern, write_i8, write_i16, write_u8, write_u64};
use mc_rows::{Words, look_up};

/// What a client does.
#[derive(Clone, Copy)]
enum Act {
    Walk,
    Dig,
    Drop,
    Place,
    Take,
    Click,
    Confirm,
    Close,
}

/// The acts that words name.
const ACTS: [(&str, Act); 8] = [
    ("walk", Act::Walk),
    ("dig", Act::Dig),
    ("drop", Act::Drop),
    ("place", Act::Place),
    ("take", Act::Take),
    ("click", Act::Click),
    ("confirm", Act::Confirm),
    ("close", Act::Close),
];

/// Puts the id and the fields of the packet that the next words mean.
pub fn put_act(words: &mut Words<'_>, out: &mut Vec<u8>) -> Result<(), NoMemory> {
    match look_up(&ACTS, words.word()) {
        Some(act) => put_fields(act, words, out),
        None => {
            words.fail();
            Ok(())
        }
    }
}

/// Puts the packet of an act.
fn put_fields(act: Act, words: &mut Words<'_>, out: &mut Vec<u8>) -> Result<(), NoMemory> {
    match act {
        Act::Walk => put_walk(words, out),
        Act::Dig => put_dig(words, out),
        Act::Drop => put_drop(words, out),
        Act::Place => put_place(words, out),
        Act::Take => put_take(words, out),
        Act::Click => put_click(words, out),
        Act::Confirm => put_confirm(words, out),
        Act::Close => put_close(words, out),
    }
}

/// Puts a place in blocks, on the ground.
fn put_walk(words: &mut Words<'_>, out: &mut Vec<u8>) -> Result<(), NoMemory> {
    write_u8(4, out)?;
    for _ in 0..3 {
        write_u64(pattern(words.number()), out)?;
    }
    write_u8(1, out)
}

/// Puts a cell that is dug.
fn put_dig(words: &mut Words<'_>, out: &mut Vec<u8>) -> Result<(), NoMemory> {
    out.extend_from_slice(&[7, 2])?;
    put_cell(words, out)?;
    write_u8(1, out)
}

/// Puts that all of what is held is dropped, or one of it.
fn put_drop(words: &mut Words<'_>, out: &mut Vec<u8>) -> Result<(), NoMemory> {
    let status = if words.word() == "all" { 3 } else { 4 };
    out.extend_from_slice(&[7, status])?;
    write_u64(0, out)?;
    write_u8(0, out)
}

/// Puts a cell and a face at which a client places. Of what it says to hold nothing is read.
fn put_place(words: &mut Words<'_>, out: &mut Vec<u8>) -> Result<(), NoMemory> {
    write_u8(8, out)?;
    put_cell(words, out)?;
    write_i8(words.number(), out)?;
    put_pile(NOTHING, out)?;
    out.extend_from_slice(&[8, 8, 8])?;
    Ok(())
}

/// Puts a place of the hotbar.
fn put_take(words: &mut Words<'_>, out: &mut Vec<u8>) -> Result<(), NoMemory> {
    write_u8(9, out)?;
    write_i16(words.number(), out)
}

/// Puts a click.
fn put_click(words: &mut Words<'_>, out: &mut Vec<u8>) -> Result<(), NoMemory> {
    write_u8(14, out)?;
    write_u8(words.number(), out)?;
    write_i16(words.number(), out)?;
    write_i8(words.number(), out)?;
    write_i16(words.number(), out)?;
    write_i8(words.number(), out)?;
    put_pile(pile_in(words), out)
}

/// Puts the confirmation of a refusal.
fn put_confirm(words: &mut Words<'_>, out: &mut Vec<u8>) -> Result<(), NoMemory> {
    write_u8(15, out)?;
    write_u8(words.number(), out)?;
    write_i16(words.number(), out)?;
    write_u8(1, out)
}

/// Puts a window that is closed.
fn put_close(words: &mut Words<'_>, out: &mut Vec<u8>) -> Result<(), NoMemory> {
    write_u8(13, out)?;
    write_u8(words.number(), out)
}

/// Puts a cell: 26 bits of x, 12 of y and 26 of z.
fn put_cell(words: &mut Words<'_>, out: &mut Vec<u8>) -> Result<(), NoMemory> {
    let x = low(words.number(), 1 << 26);
    let y = low(words.number(), 1 << 12);
    let z = low(words.number(), 1 << 26);
    write_u64(x << 38 | y << 26 | z, out)
}

/// The low bits of a number, below a power of two.
fn low(number: i32, limit: u32) -> u64 {
    u64::from(number.cast_unsigned() & limit.saturating_sub(1))
}
