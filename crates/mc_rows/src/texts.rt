//! Texts with escapes: `|` is the end of a line, `\xHH` a byte, `\t` a tab, `\r` a return, `\s` a
//! space, `\e` nothing, and `{UNIT*N}` N times the unit, which has no escapes of its own.

use crate::words::look_up;
use std::alloc::Global;

/// The bytes of a text with escapes, None where it is none or there is no memory.
pub fn text_of(alloc: Global, text: &str) -> Option<Vec<u8>> {
    let mut bytes = Vec::new(alloc);
    let (front, rest) = text.split_once('{').unwrap_or((text, ""));
    push_pieces(&mut bytes, front)?;
    if !rest.is_empty() {
        push_repeated(&mut bytes, rest)?;
    }
    Some(bytes)
}

/// Appends what is repeated, and what stands behind it.
fn push_repeated(bytes: &mut Vec<u8>, text: &str) -> Option<()> {
    let (repeated, rest) = text.split_once('}')?;
    let (unit, count) = repeated.split_once('*')?;
    push_times(bytes, unit.as_bytes(), count.parse::<usize>().ok()?)?;
    push_pieces(bytes, rest)
}

/// Appends a unit so many times.
fn push_times(bytes: &mut Vec<u8>, unit: &[u8], count: usize) -> Option<()> {
    if let [byte] = unit {
        return bytes.resize(bytes.len().saturating_add(count), *byte).ok();
    }
    for _ in 0..count {
        push_plain(bytes, unit)?;
    }
    Some(())
}

/// Appends bytes, with the end of a line for each bar.
fn push_plain(bytes: &mut Vec<u8>, text: &[u8]) -> Option<()> {
    for byte in text {
        bytes.push(if *byte == b'|' { b'\n' } else { *byte }).ok()?;
    }
    Some(())
}

/// Appends a text with escapes.
fn push_pieces(bytes: &mut Vec<u8>, text: &str) -> Option<()> {
    let (front, rest) = text.split_once('\\').unwrap_or((text, ""));
    push_plain(bytes, front.as_bytes())?;
    if rest.is_empty() {
        return Some(());
    }
    for piece in rest.split('\\') {
        push_escape(bytes, piece)?;
    }
    Some(())
}

/// The bytes that a letter behind a backslash stands for.
const ESCAPES: [(&str, u8); 3] = [("t", b'\t'), ("r", b'\r'), ("s", b' ')];

/// Appends an escape, and what stands behind it.
fn push_escape(bytes: &mut Vec<u8>, piece: &str) -> Option<()> {
    let (name, rest) = piece.split_at_checked(1)?;
    if name == "x" {
        return push_byte(bytes, rest);
    }
    if name != "e" {
        bytes.push(look_up(&ESCAPES, name)?).ok()?;
    }
    push_plain(bytes, rest.as_bytes())
}

/// Appends a byte of two digits, and what stands behind it.
fn push_byte(bytes: &mut Vec<u8>, text: &str) -> Option<()> {
    let (digits, rest) = text.split_at_checked(2)?;
    bytes.push(u8::from_str_radix(digits, 16).ok()?).ok()?;
    push_plain(bytes, rest.as_bytes())
}
