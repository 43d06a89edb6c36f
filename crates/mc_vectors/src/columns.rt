//! Columns and their bodies: `body MASK SKY GROUND_UP BYTES` reads a body, and `column CALL ..`
//! works on the column that the rows before it left. `SKY` and `GROUND_UP` are `true` or `false`.

ghost use Rattle.std.specs.Prelude.{◌<◌};

use mc_bytes::NoMemory;
use mc_column::{Column, read_body};
use mc_rows::{Answer, Words, look_up};
use std::alloc::Global;
use std::mem::replace;

/// Reads a body.
pub fn body(words: &mut Words<'_>, answer: &mut Answer) {
    let mask = words.number();
    let sky = words.number();
    let ground_up = words.number();
    match read_body(words.alloc, &words.bytes(), mask, sky, ground_up) {
        Ok(body) => {
            drop(body);
            answer.word("read");
        }
        Err(fault) => answer.read_fault(fault),
    }
}

/// A call of the column.
#[derive(Clone, Copy)]
enum Call {
    Empty,
    Copy,
    Set,
    Layer,
    Formula,
    Put,
    Again,
    Differs,
    Get,
    Biome,
    Section,
    Write,
    Bytes,
}

/// The calls by their words.
const CALLS: [(&str, Call); 13] = [
    ("empty", Call::Empty),
    ("copy", Call::Copy),
    ("set", Call::Set),
    ("layer", Call::Layer),
    ("formula", Call::Formula),
    ("put", Call::Put),
    ("again", Call::Again),
    ("differs", Call::Differs),
    ("get", Call::Get),
    ("biome", Call::Biome),
    ("section", Call::Section),
    ("write", Call::Write),
    ("bytes", Call::Bytes),
];

/// The call that a word names.
fn call_of(name: &str) -> Option<Call> {
    look_up(&CALLS, name)
}

/// Answers a row of the column.
pub fn column(column: &mut Column, words: &mut Words<'_>, answer: &mut Answer) {
    match call_of(words.word()) {
        Some(named) => answer_call(named, column, words, answer),
        None => words.fail(),
    }
}

/// Answers a call of the column.
/// Dear to prove: thirteen arms over a column that is lent.
fn answer_call(call: Call, column: &mut Column, words: &mut Words<'_>, answer: &mut Answer) {
    match call {
        Call::Empty => empty(column, words, answer),
        Call::Copy => copy(column, answer),
        Call::Set => set(column, words, answer),
        Call::Layer => layer(column, words, answer),
        Call::Formula => formula(column, words.number(), answer),
        Call::Put => put(column, words, answer),
        Call::Again => again(column, words.alloc, answer),
        Call::Differs => answer.word(differs(column, words.number())),
        Call::Get => get(column, words, answer),
        Call::Biome => biome(column, words, answer),
        Call::Section => section(column, words, answer),
        Call::Write => write(column, words.alloc, answer),
        Call::Bytes => bytes(column, words, answer),
    }
}

/// Makes the column one of air.
fn empty(column: &mut Column, words: &mut Words<'_>, answer: &mut Answer) {
    let biome = words.number();
    take(column, Column::empty(words.alloc, biome), answer);
}

/// Makes the column a new one.
fn take(column: &mut Column, new: Result<Column, NoMemory>, answer: &mut Answer) {
    match new {
        Ok(new) => drop(replace(column, new)),
        Err(NoMemory) => answer.lose(),
    }
}

/// Makes the column a copy of it.
fn copy(column: &mut Column, answer: &mut Answer) {
    let copy = column.copy();
    take(column, copy, answer);
}

/// A place inside a column: x and z from 0 to 15.
fn inside(v: u8) -> u8
    ensures { result < 16 }
{
    v % 16
}

/// Sets a cell, and puts the state that was there.
fn set(column: &mut Column, words: &mut Words<'_>, answer: &mut Answer) {
    let (x, y, z) = (words.number(), words.number(), words.number());
    match column.set(inside(x), y, inside(z), words.number()) {
        Ok(old) => answer.word(old),
        Err(NoMemory) => answer.lose(),
    }
}

/// Puts one state into a whole layer.
fn layer(column: &mut Column, words: &mut Words<'_>, answer: &mut Answer) {
    let (y, state) = (words.number(), words.number());
    for z in 0..16 {
        for x in 0..16 {
            answer.needs(column.set(x, y, z, state));
        }
    }
}

/// A state that differs from layer to layer, row to row and cell to cell.
fn formula_at(x: u8, y: u8, z: u8, more: u16) -> u16 {
    let sum = u32::from(y) * 31 + u32::from(z) * 7 + u32::from(x) * 3 + u32::from(more);
    (sum % 4096) as u16
}

/// Sets each cell to its state by the formula.
fn formula(column: &mut Column, more: u16, answer: &mut Answer) {
    for i in 0..65_536u32 {
        let (x, y, z) = cell(i);
        answer.needs(column.set(x, y, z, formula_at(x, y, z, more)));
    }
}

/// The cell with an index.
pub fn cell(i: u32) -> (u8, u8, u8)
    ensures x { result.0 < 16 }
    ensures z { result.2 < 16 }
{
    ((i % 16) as u8, (i / 256 % 256) as u8, (i / 16 % 16) as u8)
}

/// How many cells differ from the formula.
fn differs(column: &Column, more: u16) -> u32 {
    let mut count: u32 = 0;
    for i in 0..65_536u32 {
        let (x, y, z) = cell(i);
        if column.get(x, y, z) != formula_at(x, y, z, more) {
            count = count.saturating_add(1);
        }
    }
    count
}

/// Puts the state of a cell.
fn get(column: &Column, words: &mut Words<'_>, answer: &mut Answer) {
    let (x, y, z) = (words.number(), words.number(), words.number());
    answer.word(column.get(inside(x), y, inside(z)));
}

/// Puts a biome.
fn biome(column: &Column, words: &mut Words<'_>, answer: &mut Answer) {
    let (x, z) = (words.number(), words.number());
    answer.word(column.biome(inside(x), inside(z)));
}

/// Puts a state of a section, where the section is not all air.
fn section(column: &Column, words: &mut Words<'_>, answer: &mut Answer) {
    let (i, index) = (words.number(), words.number::<u16>());
    match column.section(inside(i)) {
        Some(section) => answer.word(section.get(index % 4096)),
        None => answer.word("air"),
    }
}

/// Writes the body, and puts its mask, its size, its states, its block light, its sky light and its
/// biomes.
fn write(column: &Column, alloc: Global, answer: &mut Answer) {
    let mut out = Vec::new(alloc);
    answer.needs(column.write_body(&mut out));
    let mask = column.sent_mask();
    answer.word("mask");
    answer.word(mask);
    answer.put(", bytes");
    answer.word(column.sent_size(mask));
    put_parts(&out, mask.count_ones() as usize, answer);
}

/// Puts the parts of the body of so many sections.
fn put_parts(body: &[u8], sections: usize, answer: &mut Answer) {
    let light = sections.saturating_mul(8192);
    let sky = sections.saturating_mul(10_240);
    let biomes = sections.saturating_mul(12_288);
    answer.put(", states");
    answer.states(body.get(..light).unwrap_or(&[]));
    answer.put(", light");
    answer.bytes(body.get(light..sky).unwrap_or(&[]));
    answer.put(", sky");
    answer.bytes(body.get(sky..biomes).unwrap_or(&[]));
    answer.put(", biomes");
    answer.bytes(body.get(biomes..).unwrap_or(&[]));
}

/// Puts the mask and some of the bytes of the body.
fn bytes(column: &Column, words: &mut Words<'_>, answer: &mut Answer) {
    let (from, to) = (words.number::<usize>(), words.number::<usize>());
    let mut out = Vec::new(words.alloc);
    match column.write_body(&mut out) {
        Ok(mask) => answer.word(mask),
        Err(NoMemory) => answer.lose(),
    }
    answer.word(out.len());
    answer.bytes(out.get(from..to).unwrap_or(&[]));
}

/// Puts a body into the column.
fn put(column: &mut Column, words: &mut Words<'_>, answer: &mut Answer) {
    let (mask, ground_up) = (words.number(), words.number());
    match read_body(words.alloc, &words.bytes(), mask, true, ground_up) {
        Ok(body) => {
            answer.needs(column.put(&body, mask, ground_up));
            drop(body);
        }
        Err(fault) => answer.read_fault(fault),
    }
}

/// Puts the column's own body into a column of air, which it is then.
fn again(column: &mut Column, alloc: Global, answer: &mut Answer) {
    let mut out = Vec::new(alloc);
    answer.needs(column.write_body(&mut out));
    let mask = column.sent_mask();
    take(column, Column::empty(alloc, 0), answer);
    match read_body(alloc, &out, mask, true, true) {
        Ok(body) => {
            answer.needs(column.put(&body, mask, true));
            drop(body);
        }
        Err(fault) => answer.read_fault(fault),
    }
}
