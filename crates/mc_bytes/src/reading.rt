ghost use Rattle.std.specs.Prelude.{◌≡◌, ◌≤◌, [], length, drop};
ghost use Rattle.std.specs.Int.{w8, w16, w32, w64, w128};
ghost use Rattle.mc_bytes.specs.Reading.{Yields, stop_at};
ghost use Rattle.mc_bytes.specs.NumberBytes.{octets_read, number_read};
ghost use Rattle.mc_bytes.specs.Placed.{placed, with_rest};

use crate::{FieldFault, Kind, Stop};
use std::marker::Model;

/// The bytes that are still to be read, field after field. Contracts see it as their list.
///
/// Each call takes what it reads off the front. After an error the cursor is not used again.
#[derive(Drop)]
pub struct Cursor<'a> {
    rest: &'a [u8],
}

impl<'a> Model for Cursor<'a> {
    ghost use Rattle.std.specs.Prelude.{List, ℕ};

    ghost Value = { List ℕ };

    ghost view = { λ cursor. cursor.rest.now };
}

impl<'a> Cursor<'a> {
    /// A cursor at the first of some bytes.
    pub fn new(bytes: &'a [u8]) -> Cursor<'a>
        ensures { result ≡ bytes.now }
    {
        Cursor { rest: bytes }
    }

    /// A cursor at an offset of some bytes.
    pub fn at(bytes: &'a [u8], at: usize) -> Cursor<'a>
        requires { at ≤ length bytes.now }
        ensures { result ≡ drop at bytes.now }
    {
        Cursor {
            rest: bytes.split_at(at).1,
        }
    }

    /// The bytes that are left.
    pub fn rest(&self) -> &'a [u8]
        ensures { result.now ≡ self.now }
    {
        self.rest
    }

    /// The fault of a field that begins here.
    pub fn stop(&self, kind: Kind) -> Stop
        ensures { result ≡ stop_at kind self.now }
    {
        Stop {
            kind,
            left: self.rest.len(),
        }
    }

    /// The next `n` bytes as they are. `Short` where fewer are left.
    #[tactic(auto, unfolding(crate::specs::NumberBytes::octets_read))]
    pub fn take(&mut self, n: usize) -> Result<&'a [u8], Stop>
        ensures { Yields (λ octets. (octets.now, self.new)) result (octets_read n self.old) }
    {
        if self.rest.len() < n {
            return Err(self.stop(Kind::Short));
        }
        let (front, rest) = self.rest.split_at(n);
        self.rest = rest;
        Ok(front)
    }

    /// Takes `n` bytes off the front, which are known to be there.
    pub fn skip(&mut self, n: usize)
        requires { n ≤ length self.old }
        ensures { self.new ≡ drop n self.old }
    {
        self.rest = &self.rest[n..];
    }

    /// All bytes that are left, as they are.
    pub fn take_rest(&mut self) -> &'a [u8]
        ensures taken { result.now ≡ self.old }
        ensures end { self.new ≡ [] }
    {
        let (all, end) = self.rest.split_at(self.rest.len());
        self.rest = end;
        all
    }

    /// A number of one byte. `Short` where none is left.
    #[tactic(auto, unfolding(crate::specs::NumberBytes::number_read))]
    pub fn u8(&mut self) -> Result<u8, Stop>
        ensures { Yields (λ n. (n, self.new)) result (number_read w8 self.old) }
    {
        let Some((front, rest)) = self.rest.split_first() else {
            return Err(self.stop(Kind::Short));
        };
        self.rest = rest;
        Ok(*front)
    }

    /// A number of two bytes, the high one first. `Short` where fewer are left.
    #[tactic(auto, unfolding(crate::specs::NumberBytes::number_read))]
    pub fn u16(&mut self) -> Result<u16, Stop>
        ensures { Yields (λ n. (n, self.new)) result (number_read w16 self.old) }
    {
        let Some((front, rest)) = self.rest.split_first_chunk::<2>() else {
            return Err(self.stop(Kind::Short));
        };
        self.rest = rest;
        Ok(u16::from_be_bytes(*front))
    }

    /// A number of four bytes, the highest first. `Short` where fewer are left.
    #[tactic(auto, unfolding(crate::specs::NumberBytes::number_read))]
    pub fn u32(&mut self) -> Result<u32, Stop>
        ensures { Yields (λ n. (n, self.new)) result (number_read w32 self.old) }
    {
        let Some((front, rest)) = self.rest.split_first_chunk::<4>() else {
            return Err(self.stop(Kind::Short));
        };
        self.rest = rest;
        Ok(u32::from_be_bytes(*front))
    }

    /// A number of eight bytes, the highest first. `Short` where fewer are left.
    #[tactic(auto, unfolding(crate::specs::NumberBytes::number_read))]
    pub fn u64(&mut self) -> Result<u64, Stop>
        ensures { Yields (λ n. (n, self.new)) result (number_read w64 self.old) }
    {
        let Some((front, rest)) = self.rest.split_first_chunk::<8>() else {
            return Err(self.stop(Kind::Short));
        };
        self.rest = rest;
        Ok(u64::from_be_bytes(*front))
    }

    /// A number of sixteen bytes, the highest first. `Short` where fewer are left.
    #[tactic(auto, unfolding(crate::specs::NumberBytes::number_read))]
    pub fn u128(&mut self) -> Result<u128, Stop>
        ensures { Yields (λ n. (n, self.new)) result (number_read w128 self.old) }
    {
        let Some((front, rest)) = self.rest.split_first_chunk::<16>() else {
            return Err(self.stop(Kind::Short));
        };
        self.rest = rest;
        Ok(u128::from_be_bytes(*front))
    }
}

/// What reading from an offset of some bytes gave, with its places counted from their front: the
/// value and the offset after it, or the fault.
pub fn placed<T>(
    bytes: &[u8],
    read: Result<T, Stop>,
    cursor: &Cursor<'_>,
) -> Result<(T, usize), FieldFault>
    ensures { result ≡ placed bytes.now (with_rest read cursor.now) }
{
    match read {
        Ok(value) => Ok((value, bytes.len().saturating_sub(cursor.rest.len()))),
        Err(stop) => Err(stop.within(bytes.len())),
    }
}
