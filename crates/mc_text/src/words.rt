ghost use Rattle.std.specs.Prelude.{◌≡◌, ◌≤◌, IfSome, MatchOption, position};
ghost use Rattle.std.specs.Str.{is_utf8};
ghost use Rattle.mc_text.specs.Words.{is_space, number_of};
ghost use Rattle.mc_text.specs.Words.{CutsWord, IsLastWord};

use crate::digits::ranged_u32;

/// The number in a range that a word writes, without zeros before it.
#[tactic(auto, unfolding(crate::specs::Words::number_of))]
pub fn number(word: &[u8], low: u32, high: u32) -> Option<u32>
    ensures is { result ≡ number_of low high word.now }
    ensures within { IfSome result (λ n. (low ≤ n) × (n ≤ high)) }
{
    if let [b'0', _, ..] = word {
        return None;
    }
    ranged_u32(word, low, high)
}

/// The place of the first space.
fn space(line: &[u8]) -> Option<usize>
    ensures { result ≡ position is_space line.now }
{
    line.iter().position(|byte| *byte == b' ')
}

/// The first word of a line, and what follows the space behind it, where there is one.
pub fn cut_word(line: &[u8]) -> (&[u8], Option<&[u8]>)
    ensures { MatchOption result.1
        (IsLastWord line.now result.0.now)
        (λ rest. CutsWord line.now result.0.now rest.now) }
{
    match space(line) {
        Some(end) => (&line[..end], Some(line.split_at(end + 1).1)),
        None => (line, None),
    }
}

/// Whether a line is UTF-8.
pub fn is_text(line: &[u8]) -> bool
    ensures { result ≡ is_utf8 line.now }
{
    match str::from_utf8(line) {
        Ok(_) => true,
        Err(_) => false,
    }
}
