ghost use Rattle.std.specs.Prelude.{◌≡◌, ◌*◌, ◌^◌, ◌<◌, ◌≤◌, ◌↔◌, ℕ, IsNone, IfSome};
ghost use Rattle.mc_fields.specs.Pattern.{TurnsParts, Turns, IsVast, RepresentsTurn};

use crate::parts::{raised, shifted, significand, with_sign};

/// The 1/256 turns in so many degrees, rounded down, without whole turns.
fn turn(negative: bool, significand: u64, power: u64) -> u8
    requires small { significand < 2 ^ 24 }
    requires low { power ≤ 157 }
    ensures { TurnsParts negative significand power result }
{
    let value = with_sign(negative, significand * 4096);
    shifted(value, 157 - power).div_euclid(45).rem_euclid(256) as u8
}

/// The angle of so many degrees as a binary32 pattern, in 1/256 turns, rounded down and without
/// whole turns. None exactly where all exponent bits are 1 or the number has a size of 2^31 or
/// more.
pub fn angle(pattern: u32) -> Option<u8>
    ensures none { IsNone result ↔ IsVast pattern }
    ensures some { IfSome result (λ a. Turns pattern a) }
{
    let exponent = pattern / (1 << 23) % (1 << 8);
    if exponent >= 158 {
        return None;
    }
    let size = significand(u64::from(exponent), u64::from(pattern % (1 << 23)), 23);
    Some(turn(pattern >= 1 << 31, size, u64::from(exponent).max(1)))
}

/// The binary32 pattern of `a * 45 / 32`, which is the angle in degrees.
pub fn degrees(a: u8) -> u32
    ensures zero { a ≡ 0 → result ≡ 0 }
    ensures stands { RepresentsTurn a result }
    // It is read as the angle again, and as no other.
    ensures again { Turns result a }
    ensures only { (b : ℕ) → Turns result b → b ≡ a }
{
    if a == 0 {
        return 0;
    }
    let size = u64::from(a) * 45;
    let top = size.ilog2();
    let fraction = raised(size, top, 23) - (1 << 23);
    ((122 + u64::from(top)) * (1 << 23) + fraction) as u32
}
