ghost use Rattle.std.specs.Prelude.{◌≡◌, true};
ghost use lib.IntN.{pos, negsuc};
ghost use lib.Signed.{◌≤ℤ◌};
ghost use Rattle.mc_entities.specs.Shift.{is_between, is_inside};
ghost use Rattle.mc_model.specs.Numbers.{fixed_of, turn_of};
ghost use Rattle.mc_model.specs.Movement.{moved, turned};

use mc_entities::{FLAT_END, HIGHEST, LOWEST};
use mc_fields::{Spot, angle, fixed};
use std::marker::Model;

/// Where a player wants to be, which may be out of the range of a place.
#[derive(Drop)]
pub struct Wish {
    x: i64,
    y: i64,
    z: i64,
    yaw: u8,
    pitch: u8,
}

impl Model for Wish {
    ghost use Rattle.mc_fields.specs.declared.position.Spot as spots;

    ghost Value = { spots.Spot };

    ghost view = { λ w. record { x = w.x; y = w.y; z = w.z; yaw = w.yaw; pitch = w.pitch } };
}

/// The number of a binary64 pattern, in 1/32 and rounded down.
fn fixed_of(pattern: u64) -> Option<i64>
    ensures { result ≡ fixed_of pattern }
{
    fixed(pattern)
}

/// The degrees of a binary32 pattern, in 1/256 turns.
fn turn_of(pattern: u32) -> Option<u8>
    ensures { result ≡ turn_of pattern }
{
    angle(pattern)
}

impl Wish {
    /// To stay.
    pub fn of(spot: &Spot) -> Wish
        ensures { result ≡ spot.now }
    {
        Wish {
            x: i64::from(spot.x),
            y: i64::from(spot.y),
            z: i64::from(spot.z),
            yaw: spot.yaw,
            pitch: spot.pitch,
        }
    }

    /// To be at a place given by patterns. None where one of them stands for no number.
    pub fn moved(&self, x: u64, y: u64, z: u64) -> Option<Wish>
        ensures { result ≡ moved self.now x y z }
    {
        let x = fixed_of(x)?;
        let y = fixed_of(y)?;
        let z = fixed_of(z)?;
        Some(Wish {
            x,
            y,
            z,
            yaw: self.yaw,
            pitch: self.pitch,
        })
    }

    /// To look as patterns say. None where one of them stands for no number.
    pub fn turned(&self, yaw: u32, pitch: u32) -> Option<Wish>
        ensures { result ≡ turned self.now yaw pitch }
    {
        let yaw = turn_of(yaw)?;
        let pitch = turn_of(pitch)?;
        Some(Wish {
            x: self.x,
            y: self.y,
            z: self.z,
            yaw,
            pitch,
        })
    }

    /// Whether a player may be there.
    pub fn is_in_range(&self) -> bool
        ensures { result ≡ is_inside self.now }
    {
        is_within(-FLAT_END, FLAT_END, self.x)
            && is_within(LOWEST, HIGHEST, self.y)
            && is_within(-FLAT_END, FLAT_END, self.z)
    }

    /// The place, where a player may be there.
    pub fn place(&self) -> Spot
        requires { is_inside self.now ≡ true }
        ensures { result ≡ self.now }
    {
        Spot {
            x: narrow(self.x),
            y: narrow(self.y),
            z: narrow(self.z),
            yaw: self.yaw,
            pitch: self.pitch,
        }
    }
}

fn is_within(low: i32, high: i32, n: i64) -> bool
    ensures { result ≡ is_between low high n }
{
    i64::from(low) <= n && n <= i64::from(high)
}

/// The same number in fewer bits.
fn narrow(n: i64) -> i32
    requires low { negsuc 959999999 ≤ℤ n }
    requires high { n ≤ℤ pos 960000000 }
    ensures { result ≡ n }
{
    n as i32
}
