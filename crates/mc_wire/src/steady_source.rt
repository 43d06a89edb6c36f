ghost use Rattle.std.specs.Prelude.{◌≡◌, ◌<◌, ◌≤◌, [], ◌++◌, length, take, drop, min, IsOk, IfOk};

use crate::{Failed, Source};
use std::marker::Model;

/// A source in memory that never fails. Contracts see it as the bytes that are left.
#[derive(Drop)]
pub struct SteadySource {
    bytes: Vec<u8>,
    place: usize,
}

impl Model for SteadySource {
    ghost use Rattle.std.specs.Prelude.{ℕ, ◌≤◌, List, drop, vec_len};

    ghost Value = { List ℕ };

    ghost view = { λ source. drop source.place source.bytes.items };

    ghost invariant = { λ source. source.place ≤ vec_len source.bytes };
}

impl SteadySource {
    /// A source with all of the bytes left.
    pub fn new(bytes: Vec<u8>) -> SteadySource
        ensures { result ≡ bytes.items }
    {
        SteadySource { bytes, place: 0 }
    }

    /// The bytes that are left.
    pub fn left(&self) -> &[u8]
        ensures { result.now ≡ self.now }
    {
        &self.bytes[self.place..]
    }
}

impl Source for SteadySource {
    ghost use Rattle.std.specs.Prelude.{Some, length};

    ghost left = { λ source. Some source };

    ghost faults = { λ _. 0 };

    ghost answers = { λ source. length source };

    fn read(&mut self, buf: &mut [u8]) -> Result<usize, Failed>
        requires { 0 < length buf.old }
        ensures steady { IsOk result }
        ensures within { IfOk result (λ n. n ≤ length buf.new) }
        ensures given { IfOk result (λ n. self.old ≡ take n buf.new ++ self.new) }
        ensures end { result ≡ Ok 0 → self.new ≡ [] }
        ensures falls { IfOk result (λ n. 0 < n → length self.new < length self.old) }

        // The exact answer, and what it leaves in the source and in the buffer.
        ensures many { result ≡ Ok (min (length buf.old) (length self.old)) }
        ensures rest { IfOk result (λ n. self.new ≡ drop n self.old) }
        ensures bytes { IfOk result (λ n. buf.new ≡ take n self.old ++ drop n buf.old) }
    {
        let left = self.left();
        let count = buf.len().min(left.len());
        buf[..count].copy_from_slice(&left[..count]);
        self.place += count;
        Ok(count)
    }
}
