ghost use Rattle.std.specs.Prelude.{◌≡◌, ◌*◌, ◌^◌, ◌<◌, ◌≤◌, ◌↔◌, IsNone, IfSome};
ghost use lib.IntN.{ℤ, pos};
ghost use Rattle.mc_fields.specs.Pattern.{FixesParts, Fixes, IsEndless, Represents, with_sign};

use crate::parts::{raised, shifted, significand, with_sign};

/// What `fixed` answers at most, and at least with the other sign.
const LIMIT: u64 = 1 << 40;

/// 32 times the number with these parts, rounded down and held.
fn held_floor(negative: bool, significand: u64, power: u64) -> i64
    requires small { significand < 2 ^ 53 }
    requires some { 1 ≤ power }
    requires large { 1070 ≤ power → 2 ^ 52 ≤ significand }
    ensures { FixesParts negative significand power result }
{
    if power >= 1070 {
        return with_sign(negative, LIMIT);
    }
    let floor = shifted(with_sign(negative, significand), 1070 - power);
    floor.clamp(-(LIMIT as i64), LIMIT as i64)
}

/// The number that a binary64 pattern stands for, in 1/32, rounded down and held to the range from
/// `-2^40` to `2^40`. None exactly where it stands for no number: where all exponent bits are 1.
pub fn fixed(pattern: u64) -> Option<i64>
    ensures none { IsNone result ↔ IsEndless pattern }
    ensures some { IfSome result (λ n. Fixes pattern n) }
{
    let exponent = pattern / (1 << 52) % (1 << 11);
    if exponent == 2047 {
        return None;
    }
    let size = significand(exponent, pattern % (1 << 52), 52);
    Some(held_floor(pattern >= 1 << 63, size, exponent.max(1)))
}

/// The pattern with this sign of a size in 1/32.
fn pattern_of(negative: bool, size: u64) -> u64
    requires some { 1 ≤ size }
    requires few { size < 2 ^ 32 }
    ensures { Represents (with_sign negative size) result }
{
    let top = size.ilog2();
    let fraction = raised(size, top, 52) - (1 << 52);
    let exponent = 1018 + u64::from(top);
    if negative {
        (1 << 63) + exponent * (1 << 52) + fraction
    } else {
        exponent * (1 << 52) + fraction
    }
}

/// The binary64 pattern of `n / 32`.
pub fn pattern(n: i32) -> u64
    ensures zero { n ≡ pos 0 → result ≡ 0 }
    ensures stands { Represents n result }
    // It is read as the number again, and as no other.
    ensures again { Fixes result n }
    ensures only { (m : ℤ) → Fixes result m → m ≡ n }
{
    if n == 0 {
        return 0;
    }
    pattern_of(n < 0, u64::from(n.unsigned_abs()))
}
