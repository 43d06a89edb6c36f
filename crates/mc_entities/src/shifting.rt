ghost use Rattle.std.specs.Prelude.{◌≡◌, ◌+ℤ◌};
ghost use Rattle.mc_entities.specs.Shift.{shifted_spot, within};

use crate::mind::Move;
use mc_fields::Spot;

/// How far from the middle a mob or a player goes on x and z, in 1/32 blocks: 30,000,000 blocks.
pub const FLAT_END: i32 = 960_000_000;

/// How low it goes, in 1/32 blocks: 64 blocks below the lowest cell.
pub const LOWEST: i32 = -2_048;

/// How high it goes, in 1/32 blocks: 4,096 blocks.
pub const HIGHEST: i32 = 131_072;

/// A coordinate and a step added up.
fn sum_of(value: &i32, step: &i8) -> i64
    ensures { result ≡ value.now +ℤ step.now }
{
    i64::from(*value) + i64::from(*step)
}

/// The sum as a coordinate; none where it is not from `low` to `high`.
fn within(sum: &i64, low: &i32, high: &i32) -> Option<i32>
    ensures { result ≡ within low.now high.now sum.now }
{
    if *sum < i64::from(*low) {
        return None;
    }
    if i64::from(*high) < *sum {
        return None;
    }
    Some(*sum as i32)
}

/// A coordinate after a step; none where that is not from `low` to `high`.
fn sum_within(value: &i32, step: &i8, low: &i32, high: &i32) -> Option<i32>
    ensures { result ≡ within low.now high.now (value.now +ℤ step.now) }
{
    within(&sum_of(value, step), low, high)
}

/// Moves a spot, but where it would leave the range.
pub(crate) fn shift_spot(spot: &mut Spot, by: &Move)
    ensures { spot.new ≡ shifted_spot by.now spot.old }
{
    let Some(x) = sum_within(&spot.x, &by.dx, &-FLAT_END, &FLAT_END) else {
        return;
    };
    let Some(y) = sum_within(&spot.y, &by.dy, &LOWEST, &HIGHEST) else {
        return;
    };
    let Some(z) = sum_within(&spot.z, &by.dz, &-FLAT_END, &FLAT_END) else {
        return;
    };
    spot.x = x;
    spot.y = y;
    spot.z = z;
}
