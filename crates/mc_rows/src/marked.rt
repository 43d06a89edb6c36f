//! Bytes as a word: hex, or such parts with `+` between them. A part `HEX*N` is the bytes N times,
//! and a part `HEX^N` is N bytes of which the first is that one, each one more than the one before.
//! A `|` stands where reading begins, and another where it is to end. No bytes are `-`.

ghost use Rattle.std.specs.Prelude.{◌≤◌, length};

use std::alloc::Global;

/// Bytes, and where reading begins in them.
#[derive(Drop)]
pub struct Marked {
    pub bytes: Vec<u8>,
    pub at: usize,
    ghost within: { at ≤ length bytes.items },
}

impl Marked {
    /// Makes no bytes.
    pub fn nothing(alloc: Global) -> Marked {
        Marked {
            bytes: Vec::new(alloc),
            at: 0,
        }
    }

    /// Copies the bytes before the mark, none of them where there is no memory.
    pub fn front(&self) -> Vec<u8> {
        let mut front = Vec::new(*self.bytes.allocator());
        let _ = front.extend_from_slice(self.bytes.get(..self.at).unwrap_or(&[]));
        front
    }

    /// Reads the bytes of a word, None where it is none or there is no memory for them.
    pub fn parse(alloc: Global, word: &str) -> Option<Marked> {
        let mut bytes = Vec::new(alloc);
        let (front, rest) = word.split_once('|').unwrap_or(("", word));
        let (middle, back) = rest.split_once('|').unwrap_or((rest, ""));
        push_parts(&mut bytes, front)?;
        let at = bytes.len();
        push_parts(&mut bytes, middle)?;
        push_parts(&mut bytes, back)?;
        if at > bytes.len() {
            return None;
        }
        Some(Marked { bytes, at })
    }
}

/// Reads the bytes of a word without marks, None where it is none or there is no memory for them.
pub fn bytes_of(alloc: Global, word: &str) -> Option<Vec<u8>> {
    let mut bytes = Vec::new(alloc);
    push_parts(&mut bytes, word)?;
    Some(bytes)
}

/// Appends the bytes of some parts.
fn push_parts(bytes: &mut Vec<u8>, parts: &str) -> Option<()> {
    if parts.is_empty() || parts == "-" {
        return Some(());
    }
    for part in parts.split('+') {
        push_part(bytes, part)?;
    }
    Some(())
}

/// Appends the bytes of a part.
fn push_part(bytes: &mut Vec<u8>, part: &str) -> Option<()> {
    if let Some((unit, count)) = part.split_once('*') {
        return push_times(bytes, unit, count.parse::<usize>().ok()?);
    }
    if let Some((first, count)) = part.split_once('^') {
        return push_rising(bytes, first, count.parse::<usize>().ok()?);
    }
    push_times(bytes, part, 1)
}

/// Appends the bytes of a hex text so many times.
fn push_times(bytes: &mut Vec<u8>, text: &str, count: usize) -> Option<()> {
    let unit = hex::decode(*bytes.allocator(), text).ok()?;
    for _ in 0..count {
        bytes.extend_from_slice(&unit).ok()?;
    }
    Some(())
}

/// Appends so many bytes, the first of which is the one of a hex text.
fn push_rising(bytes: &mut Vec<u8>, text: &str, count: usize) -> Option<()> {
    let first = u8::from_str_radix(text, 16).ok()?;
    for i in 0..count {
        bytes.push(first.wrapping_add((i % 256) as u8)).ok()?;
    }
    Some(())
}
