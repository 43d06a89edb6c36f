ghost use Rattle.std.specs.Prelude.{◌≡◌, ◌≤◌, ◌<◌, ◌^◌, ◌++◌, ℕ, List, Ok, IfOk, OnOk, OnErr, drop};
ghost use Rattle.std.specs.Prelude.{length};
ghost use Rattle.std.specs.Str.{chars};
ghost use Rattle.mc_bytes.specs.Reading.{Yields, Gives};
ghost use Rattle.mc_bytes.specs.Placed.{SpelledAt, PlacedGives, placed};
ghost use Rattle.mc_fields.specs.Text.{FitsText, SpellsText, checked_text, text_front, text_read};
ghost use Rattle.mc_fields.specs.Text.{text_spelling};

use crate::varint::{take_varint, write_varint};
use mc_bytes::{Cursor, Kind, NoMemory, ReadError, ReadFault, Stop, Text, placed};
use std::alloc::Global;

/// How many code points a text has.
#[tactic(auto, using(std::proofs::lemmas::Str::chars_from_encodes))]
fn code_points(text: &str) -> usize
    ensures { result ≡ length (chars text.now) }
{
    text.chars().count()
}

/// Bytes as a text of at most `points` code points, or why they are none.
fn checked_text(bytes: &[u8], points: usize) -> Result<&str, Kind>
    ensures { Yields (λ text. text.now) result (checked_text points bytes.now) }
{
    let Ok(text) = str::from_utf8(bytes) else {
        return Err(Kind::BadText);
    };
    if code_points(text) > points {
        return Err(Kind::TooLong);
    }
    Ok(text)
}

/// The text of a stated length at the front of the bytes after that length, or why there is none.
fn text_front(bytes: &[u8], size: i32, points: usize) -> Result<&str, Kind>
    ensures { Yields (λ text. text.now) result (text_front points size bytes.now) }
{
    let Ok(len) = usize::try_from(size) else {
        return Err(Kind::BadLength);
    };
    if len > points.saturating_mul(4) {
        return Err(Kind::TooLong);
    }
    if len > bytes.len() {
        return Err(Kind::Short);
    }
    checked_text(bytes.split_at(len).0, points)
}

/// Takes a text of at most `points` code points, without copying it.
///
/// The faults of its length's VarInt come first. After them, in order and all at the text's first
/// byte: `BadLength` where the length is negative, `TooLong` where it is above four bytes for each
/// code point, `Short` where fewer bytes are left, `BadText` where they are not UTF-8, and
/// `TooLong` where they are more code points.
#[tactic(auto, unfolding(crate::specs::Text::text_read))]
pub fn take_str<'a>(cursor: &mut Cursor<'a>, points: usize) -> Result<&'a str, Stop>
    ensures { Yields (λ text. (text.now, cursor.new)) result (text_read points cursor.old) }
{
    let start = Cursor::new(cursor.rest());
    let size = take_varint(cursor)?;
    match text_front(cursor.rest(), size, points) {
        Ok(text) => {
            cursor.skip(text.len());
            Ok(text)
        }
        Err(kind) => Err(start.stop(kind)),
    }
}

/// Takes a text of at most `points` code points, with the faults of `take_str`.
pub fn take_text(alloc: Global, cursor: &mut Cursor<'_>, points: usize) -> Result<Text, ReadError>
    ensures { Gives (λ text. (text, cursor.new)) result (text_read points cursor.old) }
{
    let text = take_str(cursor, points)?;
    Ok(Text::from_str(alloc, text)?)
}

/// What reading a text from an offset gives.
fn text_at(alloc: Global, bytes: &[u8], at: usize, n: usize) -> Result<(Text, usize), ReadFault>
    requires { at ≤ length bytes.now }
    ensures { PlacedGives (λ read. read) result
        (placed bytes.now (text_read n (drop at bytes.now))) }
{
    let mut cursor = Cursor::at(bytes, at);
    let text = take_str(&mut cursor, n);
    let (text, end) = placed(bytes, text, &cursor)?;
    Ok((Text::from_str(alloc, text)?, end))
}

/// Reads a text of at most `n` code points at an offset: the text and the offset after it.
///
/// The faults of its length's VarInt come first. After them, in order and all at the text's first
/// byte: `BadLength` where the length is negative, `TooLong` where it is above `4 * n`, `Short`
/// where fewer bytes are left, `BadText` where they are not UTF-8, and `TooLong` where they are
/// more than `n` code points.
pub fn read_text(
    alloc: Global,
    bytes: &[u8],
    at: usize,
    n: usize,
) -> Result<(Text, usize), ReadFault>
    requires { at ≤ length bytes.now }
    // What is read is spelled there.
    ensures found { IfOk result (λ read. SpelledAt (SpellsText n read.0) bytes.now at read.1) }
    // What is spelled there is read, unless memory runs out.
    ensures only { (text : List ℕ) (end : ℕ) → SpelledAt (SpellsText n text) bytes.now at end →
        PlacedGives (λ read. read) result (Ok (text, end)) }
    // From one place on one text is spelled at most, and it has one end.
    ensures one { (a b : List ℕ) (m p : ℕ) → SpelledAt (SpellsText n a) bytes.now at m →
        SpelledAt (SpellsText n b) bytes.now at p → (a ≡ b) × (m ≡ p) }
    // Which fault it is.
    ensures exact { PlacedGives (λ read. read) result
        (placed bytes.now (text_read n (drop at bytes.now))) }
{
    text_at(alloc, bytes, at, n)
}

/// Appends a text, its length as a shortest VarInt. Without memory `out` is as before.
#[tactic(auto, using(crate::specs::TextLaws::text_written, crate::proofs::Again::text_again), unfolding(crate::specs::Text::text_spelling))]
pub fn write_text(text: &Text, out: &mut Vec<u8>) -> Result<(), NoMemory>
    requires { length text.now < 2 ^ 31 }
    ensures ok { OnOk result (out.new.items ≡ out.old.items ++ text_spelling text.now) }
    // The bytes spell it in each field that allows it, and are read there again, whatever follows.
    ensures spelled { (points : ℕ) →
        FitsText points text.now → SpellsText points text.now (text_spelling text.now) }
    ensures again { (points : ℕ) (rest : List ℕ) → FitsText points text.now →
        text_read points (text_spelling text.now ++ rest) ≡ Ok (text.now, rest) }
    ensures err { OnErr result (out.new.items ≡ out.old.items) }
{
    let bytes = text.as_str().as_bytes();
    let start = out.len();
    write_varint(bytes.len() as i32, out)?;
    if out.extend_from_slice(bytes).is_err() {
        out.truncate(start);
        return Err(NoMemory);
    }
    Ok(())
}
