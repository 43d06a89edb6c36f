//! Single fields: `NAME BYTES` reads one, and `write BYTES NAME VALUE ..` writes some behind bytes.

use mc_bytes::{Cursor, Kind, NoMemory, Octets, Stop, Text, placed, write_octets};
use mc_fields::{
    PacketFault, PacketRead, RowError, RowFault, angle, degrees, fixed, pack, pattern, read_bool,
    read_i8, read_i16, read_i32, read_i64, read_text, read_u8, read_u16, read_u32, read_u64,
    read_u128, read_varint, take_position, unpack, whole, write_bool, write_i8, write_i16,
    write_i32, write_i64, write_position, write_text, write_u8, write_u16, write_u32, write_u64,
    write_u128, write_varint,
};
use mc_rows::{Answer, Marked, Words, look_up};
use std::fmt::Display;

/// What kind of number a field is.
#[derive(Clone, Copy)]
enum Number {
    Bool,
    I8,
    U8,
    I16,
    U16,
    I32,
    U32,
    I64,
    U64,
    U128,
    Varint,
}

/// The kinds of numbers by their words.
const NUMBERS: [(&str, Number); 11] = [
    ("bool", Number::Bool),
    ("i8", Number::I8),
    ("u8", Number::U8),
    ("i16", Number::I16),
    ("u16", Number::U16),
    ("i32", Number::I32),
    ("u32", Number::U32),
    ("i64", Number::I64),
    ("u64", Number::U64),
    ("u128", Number::U128),
    ("varint", Number::Varint),
];

/// The kind that a word names.
fn number_of(name: &str) -> Option<Number> {
    look_up(&NUMBERS, name)
}

/// Answers a row of a field.
pub fn field(name: &str, words: &mut Words<'_>, answer: &mut Answer) {
    match number_of(name) {
        Some(number) => read_number(number, &words.marked(), answer),
        None => named(name, words, answer),
    }
}

/// What else a row of a field does.
#[derive(Clone, Copy)]
enum Other {
    Write,
    Text,
    Octets,
    Word,
    Position,
    Cursor,
    Whole,
    Within,
    Fixed,
    Pattern,
    Angle,
    Degrees,
    Unpack,
}

/// What else a row does, by its word.
const OTHERS: [(&str, Other); 13] = [
    ("write", Other::Write),
    ("text", Other::Text),
    ("octets", Other::Octets),
    ("word", Other::Word),
    ("position", Other::Position),
    ("cursor", Other::Cursor),
    ("whole", Other::Whole),
    ("within", Other::Within),
    ("fixed", Other::Fixed),
    ("pattern", Other::Pattern),
    ("angle", Other::Angle),
    ("degrees", Other::Degrees),
    ("unpack", Other::Unpack),
];

/// What a word names.
fn other_of(name: &str) -> Option<Other> {
    look_up(&OTHERS, name)
}

/// Answers a row of a field that is no number.
/// Dear to prove: an arm for each of thirteen calls.
fn answer_other(other: Other, words: &mut Words<'_>, answer: &mut Answer) {
    match other {
        Other::Write => write(words, answer),
        Other::Text => text(words, answer),
        Other::Octets => octets(words, answer),
        Other::Word => word(words, answer),
        Other::Position => position(words, answer),
        Other::Cursor => cursor(words, answer),
        Other::Whole => row_end(words, answer),
        Other::Within => within(words, answer),
        Other::Fixed => maybe(fixed(words.pattern()), answer),
        Other::Pattern => answer.bytes(&pattern(words.number()).to_be_bytes()),
        Other::Angle => maybe(angle(low(words.pattern())), answer),
        Other::Degrees => answer.bytes(&degrees(words.number()).to_be_bytes()),
        Other::Unpack => unpacked(words.pattern(), answer),
    }
}

/// Answers a row of a field that is no number, by its name.
fn named(name: &str, words: &mut Words<'_>, answer: &mut Answer) {
    match other_of(name) {
        Some(named) => answer_other(named, words, answer),
        None => words.fail(),
    }
}

/// Reads a number or a truth value.
fn read_number(number: Number, input: &Marked, answer: &mut Answer) {
    let (bytes, at) = (input.bytes.as_slice(), input.at);
    match number {
        Number::Bool => answer.read(read_bool(bytes, at)),
        Number::I8 => answer.read(read_i8(bytes, at)),
        Number::U8 => answer.read(read_u8(bytes, at)),
        Number::I16 => answer.read(read_i16(bytes, at)),
        Number::U16 => answer.read(read_u16(bytes, at)),
        Number::I32 => answer.read(read_i32(bytes, at)),
        Number::U32 => answer.read(read_u32(bytes, at)),
        Number::I64 => answer.read(read_i64(bytes, at)),
        Number::U64 => answer.read(read_u64(bytes, at)),
        Number::U128 => answer.read(read_u128(bytes, at)),
        Number::Varint => answer.read(read_varint(bytes, at)),
    }
}

/// Writes fields behind bytes.
fn write(words: &mut Words<'_>, answer: &mut Answer) {
    let mut out = words.bytes();
    for _ in 0..64 {
        if words.is_more() {
            write_next(words, &mut out, answer);
        }
    }
    answer.bytes(&out);
}

/// Writes the next field.
fn write_next(words: &mut Words<'_>, out: &mut Vec<u8>, answer: &mut Answer) {
    let name = words.word();
    match number_of(name) {
        Some(number) => answer.needs(write_number(number, words, out)),
        None if name == "octets" => answer.needs(write_octets(&words.bytes(), out)),
        None => words.fail(),
    }
}

/// Writes a number or a truth value.
/// Dear to prove: eleven arms, each of which reads and writes.
fn write_number(number: Number, words: &mut Words<'_>, out: &mut Vec<u8>) -> Result<(), NoMemory> {
    match number {
        Number::Bool => write_bool(words.number(), out),
        Number::I8 => write_i8(words.number(), out),
        Number::U8 => write_u8(words.number(), out),
        Number::I16 => write_i16(words.number(), out),
        Number::U16 => write_u16(words.number(), out),
        Number::I32 => write_i32(words.number(), out),
        Number::U32 => write_u32(words.number(), out),
        Number::I64 => write_i64(words.number(), out),
        Number::U64 => write_u64(words.number(), out),
        Number::U128 => write_u128(words.number(), out),
        Number::Varint => write_varint(words.number(), out),
    }
}

/// Reads a text of at most so many code points, and writes a copy of it.
fn text(words: &mut Words<'_>, answer: &mut Answer) {
    let points = words.number();
    let input = words.marked();
    match read_text(words.alloc, &input.bytes, input.at, points) {
        Ok((text, end)) => {
            answer.text(text.as_str());
            answer.at(end);
            text_again(&input, end, &text, answer);
            drop(text);
        }
        Err(fault) => answer.read_fault(fault),
    }
}

/// Writes a copy of a text behind the bytes that stood before it.
fn text_again(input: &Marked, end: usize, text: &Text, answer: &mut Answer) {
    let mut out = input.front();
    if let Ok(copy) = text.copy() {
        let text = Text::from_string(copy.into_string());
        if text.as_str().len() < 2_147_483_648 {
            answer.needs(write_text(&text, &mut out));
        }
    }
    answer.again(input, end, &out);
}

/// Makes bytes from bytes: copied, taken out and put back.
fn octets(words: &mut Words<'_>, answer: &mut Answer) {
    match words.octets().copy() {
        Ok(copy) => {
            let octets = Octets::from_vec(copy.into_vec());
            answer.bytes(octets.as_slice());
        }
        Err(NoMemory) => answer.lose(),
    }
}

/// Makes a text from the next word.
fn word(words: &mut Words<'_>, answer: &mut Answer) {
    match Text::from_str(words.alloc, words.word()) {
        Ok(text) => answer.text(text.as_str()),
        Err(NoMemory) => answer.lose(),
    }
}

/// Reads a position, and writes it again.
fn position(words: &mut Words<'_>, answer: &mut Answer) {
    let input = words.marked();
    let mut cursor = Cursor::at(&input.bytes, input.at);
    let read = take_position(&mut cursor);
    match placed(&input.bytes, read, &cursor) {
        Ok((cell, end)) => {
            answer.word(cell.x);
            answer.word(cell.y);
            answer.word(cell.z);
            answer.at(end);
            let mut out = input.front();
            answer.needs(write_position(unpack(pack(cell)), &mut out));
            answer.again(&input, end, &out);
        }
        Err(fault) => answer.fault(fault),
    }
}

/// The low 32 bits of a number.
fn low(value: u64) -> u32 {
    (value % 0x1_0000_0000) as u32
}

/// Puts a number, where there is one.
fn maybe<T: Display + Drop>(value: Option<T>, answer: &mut Answer) {
    match value {
        Some(value) => answer.word(value),
        None => answer.word("none"),
    }
}

/// Puts the place that a word names, and the word that the place is packed in.
fn unpacked(word: u64, answer: &mut Answer) {
    let cell = unpack(word);
    answer.word(cell.x);
    answer.word(cell.y);
    answer.word(cell.z);
    answer.comma();
    answer.bytes(&pack(cell).to_be_bytes());
}

/// Reads field after field.
fn cursor(words: &mut Words<'_>, answer: &mut Answer) {
    let input = words.marked();
    let mut cursor = Cursor::at(&input.bytes, input.at);
    for _ in 0..64 {
        if words.is_more() {
            answer.comma();
            next_step(&input.bytes, &mut cursor, words, answer);
        }
    }
}

/// A call of a cursor.
#[derive(Clone, Copy)]
enum Step {
    U8,
    U16,
    U32,
    U64,
    Take,
    Left,
    Rest,
}

/// The calls of a cursor by their words.
const STEPS: [(&str, Step); 7] = [
    ("u8", Step::U8),
    ("u16", Step::U16),
    ("u32", Step::U32),
    ("u64", Step::U64),
    ("take", Step::Take),
    ("left", Step::Left),
    ("rest", Step::Rest),
];

/// The call that a word names.
fn step_of(name: &str) -> Option<Step> {
    look_up(&STEPS, name)
}

/// Answers the next call of a cursor.
fn next_step(bytes: &[u8], cursor: &mut Cursor<'_>, words: &mut Words<'_>, answer: &mut Answer) {
    match step_of(words.word()) {
        Some(named) => take_step(named, bytes, cursor, words, answer),
        None => words.fail(),
    }
}

/// Reads the next field with a cursor.
/// Dear to prove: four arms give a result with its place.
fn take_step(
    step: Step,
    bytes: &[u8],
    cursor: &mut Cursor<'_>,
    words: &mut Words<'_>,
    answer: &mut Answer,
) {
    match step {
        Step::U8 => {
            let read = cursor.u8();
            answer.read(placed(bytes, read, cursor));
        }
        Step::U16 => {
            let read = cursor.u16();
            answer.read(placed(bytes, read, cursor));
        }
        Step::U32 => {
            let read = cursor.u32();
            answer.read(placed(bytes, read, cursor));
        }
        Step::U64 => {
            let read = cursor.u64();
            answer.read(placed(bytes, read, cursor));
        }
        Step::Take => match cursor.take(words.number()) {
            Ok(taken) => answer.bytes(taken),
            Err(stop) => answer.fault(stop.within(bytes.len())),
        },
        Step::Left => answer.bytes(cursor.rest()),
        Step::Rest => answer.bytes(cursor.take_rest()),
    }
}

/// Says whether a row ends with its frame, of which these bytes are left.
fn row_end(words: &mut Words<'_>, answer: &mut Answer) {
    let value = words.number::<u8>();
    let left = words.bytes();
    match whole(value, &Cursor::new(&left)) {
        Ok(value) => answer.word(value),
        Err(fault) => packet_fault(fault.within(left.len()), answer),
    }
}

/// Puts why a frame is no packet.
pub fn packet_fault(fault: PacketFault, answer: &mut Answer) {
    match fault {
        PacketFault::UnknownId(id) => {
            answer.word("UnknownId");
            answer.word(id);
        }
        PacketFault::Field(fault) => answer.fault(fault),
        PacketFault::Trailing(count) => {
            answer.word("Trailing");
            answer.word(count);
        }
    }
}

/// Puts why a packet was not read.
pub fn packet_read(error: PacketRead, answer: &mut Answer) {
    match error {
        PacketRead::Fault(fault) => packet_fault(fault, answer),
        PacketRead::NoMemory => answer.word(NoMemory),
    }
}

/// Places an error of a row in a frame of so many bytes.
fn within(words: &mut Words<'_>, answer: &mut Answer) {
    let len = words.number();
    let error = match words.word() {
        "UnknownId" => RowError::Fault(RowFault::UnknownId(words.number())),
        "Trailing" => RowError::Fault(RowFault::Trailing(words.number())),
        "BadText" => RowError::Fault(RowFault::Stop(bad_text(words.number()))),
        _ => RowError::NoMemory,
    };
    packet_read(error.within(len), answer);
}

/// A text that is none, so many bytes from the end.
fn bad_text(left: usize) -> Stop {
    Stop {
        kind: Kind::BadText,
        left,
    }
}
