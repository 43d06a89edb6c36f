ghost use Rattle.std.specs.Prelude.{◌≡◌, ◌<◌, ◌≤◌, Some, [], length, IsOk, IfOk, option_map};
ghost use Rattle.std.specs.Option.{option_copied};
ghost use Rattle.mc_wire.specs.Stream.{Grows};

use crate::{Failed, Sink};
use std::alloc::Global;
use std::marker::Model;

/// A sink in memory that never fails. Contracts see it as the bytes that it holds, or as `None`
/// once there was no memory for them: from then on it takes every piece, and tells none of them.
#[derive(Drop)]
pub struct SteadySink {
    bytes: Option<Vec<u8>>,
}

impl Model for SteadySink {
    ghost use Rattle.std.specs.Prelude.{ℕ, Option, List, option_map};

    ghost Value = { Option (List ℕ) };

    ghost view = { λ sink. option_map (λ bytes. bytes.items) sink.bytes };
}

impl SteadySink {
    /// A sink that holds nothing yet.
    pub fn new(alloc: Global) -> SteadySink
        ensures { result ≡ Some [] }
    {
        SteadySink {
            bytes: Some(Vec::new(alloc)),
        }
    }

    /// The bytes that it holds, or `None` where it no longer tells them.
    pub fn held(&self) -> Option<&[u8]>
        ensures { option_copied result ≡ self.now }
    {
        match &self.bytes {
            Some(bytes) => Some(bytes.as_slice()),
            None => None,
        }
    }
}

impl Sink for SteadySink {
    ghost held = { λ sink. sink };

    ghost faults = { λ _. 0 };

    fn write(&mut self, piece: &[u8]) -> Result<usize, Failed>
        requires { 0 < length piece.now }
        ensures steady { IsOk result }
        ensures took { IfOk result (λ n. (0 < n) × (n ≤ length piece.now)) }
        ensures grows { Grows self.old self.new piece.now }

        // The exact answer.
        ensures many { result ≡ Ok (length piece.now) }
    {
        keep(&mut self.bytes, piece);
        Ok(piece.len())
    }
}

/// Puts a piece behind the bytes, or drops them all where there is no memory for it.
fn keep(bytes: &mut Option<Vec<u8>>, piece: &[u8])
    ensures { let items = option_map (λ v. v.items) in
        Grows (items bytes.old) (items bytes.new) piece.now }
{
    if let Some(kept) = bytes
        && kept.extend_from_slice(piece).is_err()
    {
        *bytes = None;
    }
}
