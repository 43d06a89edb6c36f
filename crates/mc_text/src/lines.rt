ghost use Rattle.std.specs.Prelude.{◌≡◌, IfOk, IsErrOf, position, MatchOption};
ghost use Rattle.mc_text.specs.Lines.{is_line_end, is_skipped, line_bytes, goes_past, PutsLine};
ghost use Rattle.mc_text.specs.Lines.{EndsText, CutsLine};
ghost use Rattle.std.specs.Result.{result_ok};
ghost use Rattle.hex.specs.Hex.{decode_of};
ghost use Rattle.mc_wire.specs.Count.{Rose};
ghost use Rattle.mc_text.specs.Lines.{ReadsText};

use mc_bytes::NoMemory;
use mc_wire::{InputError, Source, read_up_to};
use std::alloc::Global;

/// The most bytes that a text has.
pub const TEXT_MAX: usize = 67_108_864;

/// What an input has left as a text. Of more bytes than a text has it is the first ones, up to one
/// past the most, which show that.
pub fn read_text<I: Source>(alloc: Global, input: &mut I) -> Result<Vec<u8>, InputError>
    ensures reads { IfOk result
        (λ text. ReadsText (I.left input.old) (I.left input.new) text.items) }
    ensures failed { IsErrOf result InputError.Failed →
        Rose (I.faults input.old) (I.faults input.new) }
{
    read_up_to(alloc, input, TEXT_MAX + 1)
}

/// Whether a line goes past the most bytes of a text: the text has `len`, and `size` up to the
/// line's end.
pub fn goes_past(len: usize, size: usize) -> bool
    ensures { result ≡ goes_past len size }
{
    len > TEXT_MAX && size > TEXT_MAX
}

/// The place of the first line end.
fn line_end(text: &[u8]) -> Option<usize>
    ensures { result ≡ position is_line_end text.now }
{
    text.iter().position(|byte| *byte == b'\n')
}

/// The first line of a text, and what follows its end, where it has one.
pub fn cut_line(text: &[u8]) -> (&[u8], Option<&[u8]>)
    ensures { MatchOption result.1
        (EndsText text.now result.0.now)
        (λ rest. CutsLine text.now result.0.now rest.now) }
{
    match line_end(text) {
        Some(end) => (&text[..end], Some(text.split_at(end + 1).1)),
        None => (text, None),
    }
}

/// Whether a line is left out.
pub fn is_skipped(line: &[u8]) -> bool
    ensures { result ≡ is_skipped line.now }
{
    match line {
        [] => true,
        [first, ..] => *first == b'#',
    }
}

/// Puts the bytes that hex digits write behind the others, and says whether they were hex.
pub fn put_decoded(digits: &[u8], bytes: &mut Vec<u8>) -> Result<bool, NoMemory>
    ensures { IfOk result (λ is_hex.
        PutsLine (result_ok (decode_of digits.now)) bytes.old.items bytes.new.items is_hex) }
{
    let start = bytes.len();
    bytes.resize(start + digits.len() / 2, 0)?;
    let room = &mut bytes.as_mut_slice()[start..];
    Ok(hex::decode_to_slice(digits, room).is_ok())
}

/// Puts the bytes of a line behind the others, and says whether it was hex.
pub fn put_line(line: &[u8], bytes: &mut Vec<u8>) -> Result<bool, NoMemory>
    ensures { IfOk result
        (λ is_hex. PutsLine (line_bytes line.now) bytes.old.items bytes.new.items is_hex) }
{
    if is_skipped(line) {
        return Ok(true);
    }
    put_decoded(line, bytes)
}
