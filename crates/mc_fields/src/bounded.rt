//! Texts whose field names a limit.
#![tactic(auto, using(mc_bytes::proofs::Kept::kept_whole, mc_bytes::proofs::Kept::kept_same, mc_bytes::proofs::Kept::kept_by))]

ghost use Rattle.std.specs.Prelude.{◌≡◌};
ghost use Rattle.mc_fields.specs.TextFormat.{text};

use crate::{Field, take_text, write_text};
use mc_bytes::{Cursor, NoMemory, ReadError, Text};
use std::alloc::Global;
use std::marker::Model;

/// A text of a field that allows `N` code points. Contracts see it as the list of its UTF-8 bytes.
#[derive(Drop)]
pub struct Bounded<const N: usize> {
    text: Text,
}

impl<const N: usize> Model for Bounded<N> {
    ghost use Rattle.std.specs.Prelude.{List, ℕ};

    ghost Value = { List ℕ };

    ghost view = { λ bounded. bounded.text };
}

impl<const N: usize> Bounded<N> {
    /// The text, without copying it.
    pub fn into_text(self) -> Text
        ensures { result ≡ self.entry }
    {
        self.text
    }
}

impl<const N: usize> Field for Bounded<N> {
    ghost format = { text N };

    fn get(alloc: Global, cursor: &mut Cursor<'_>) -> Result<Bounded<N>, ReadError> {
        let text = take_text(alloc, cursor, N)?;
        Ok(Bounded { text })
    }

    fn put(&self, out: &mut Vec<u8>) -> Result<(), NoMemory> {
        write_text(&self.text, out)?;
        Ok(())
    }
}
