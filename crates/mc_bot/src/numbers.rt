ghost use Rattle.std.specs.Prelude.{◌≡◌, ◌≤◌, ◌<◌, ◌^◌, IfSome};
ghost use lib.IntN.{pos, neg_ℤ};
ghost use lib.Signed.{◌≤ℤ◌};
ghost use Rattle.mc_bot.specs.Words.{byte_of, cell_of, int_of, short_of, state_of, turn_of};
ghost use Rattle.mc_bot.specs.Words.{whole_of};

use mc_fields::Cell;
use mc_text::number;

/// The whole number of at most `most`, and of at most `below` below zero, that a word writes.
#[tactic(auto, unfolding(crate::specs::Words::whole_of))]
fn whole(word: &[u8], below: u32, most: u32) -> Option<i32>
    requires low { below ≤ 2 ^ 31 }
    requires high { most < 2 ^ 31 }
    ensures is { result ≡ whole_of below most word.now }
    ensures within { IfSome result (λ n. (neg_ℤ (pos below) ≤ℤ n) × (n ≤ℤ pos most)) }
{
    let (first, digits) = word.split_first()?;
    if *first == b'-' {
        i32::try_from(-i64::from(number(digits, 1, below)?)).ok()
    } else {
        i32::try_from(number(word, 0, most)?).ok()
    }
}

/// A number of 8 bits.
pub fn byte(word: &[u8]) -> Option<i8>
    ensures { result ≡ byte_of word.now }
{
    i8::try_from(whole(word, 128, 127)?).ok()
}

/// A number of 16 bits.
pub fn short(word: &[u8]) -> Option<i16>
    ensures { result ≡ short_of word.now }
{
    i16::try_from(whole(word, 32_768, 32_767)?).ok()
}

/// A number of 32 bits.
pub fn int(word: &[u8]) -> Option<i32>
    ensures { result ≡ int_of word.now }
{
    whole(word, 2_147_483_648, 2_147_483_647)
}

/// A yaw or a pitch, in 256ths of a turn.
pub fn turn(word: &[u8]) -> Option<u8>
    ensures { result ≡ turn_of word.now }
{
    u8::try_from(number(word, 0, 255)?).ok()
}

/// The state of a cell.
pub fn state(word: &[u8]) -> Option<u16>
    ensures { result ≡ state_of word.now }
{
    u16::try_from(number(word, 0, 65_535)?).ok()
}

/// A cell whose place a packet can carry.
pub fn cell(x: &[u8], y: &[u8], z: &[u8]) -> Option<Cell>
    ensures { result ≡ cell_of x.now y.now z.now }
{
    Some(Cell {
        x: whole(x, 33_554_432, 33_554_431)?,
        y: whole(y, 2_048, 2_047)?,
        z: whole(z, 33_554_432, 33_554_431)?,
    })
}
