//! What was encoded of entities, looked at one number after another.

ghost use Rattle.std.specs.Prelude.{◌≡◌, ◌++◌, ◌+◌, ◌<◌, [], IfOk, IfSome, OnOk, length};
ghost use Rattle.std.specs.Prelude.{if◌then◌else◌};
ghost use Rattle.std.specs.FinMap.{entries};
ghost use Rattle.std.specs.Option.{option_copied};
ghost use Rattle.mc_told.specs.EntityFrames.{AreEncoded, found_spawn, move_bytes};
ghost use Rattle.mc_told.specs.Runs.{IsMoveAt, frames_between};

use crate::EncodedEntities;
use crate::row::Row;
use bytes::Bytes;
use mc_bytes::NoMemory;
use mc_fields::Spot;
use std::marker::Model;

/// A look at what was encoded of entities, and the frames that are due to a client: those of moves
/// that stand side by side, which are then appended by one copy. Who asks for the moves of numbers
/// that rise goes through them once; that of any other number is searched for.
#[derive(Drop)]
pub struct EncodedLooks<'a> {
    encoded: &'a EncodedEntities,
    /// The place of the first move whose frames are due.
    first: usize,
    /// The place behind the last one, where the next move is looked for first.
    behind: usize,
}

impl<'a> Model for EncodedLooks<'a> {
    ghost use Rattle.mc_told.specs.Runs.{IsRun, LooksValue, coded_looks, frames_between};

    ghost Value = { LooksValue };

    ghost coded = { coded_looks };

    ghost view = { λ looks. record {
      encoded = looks.encoded.now;
      due = frames_between looks.encoded.now.moves looks.first looks.behind;
      place = looks.behind;
    } };

    ghost invariant = { λ looks. IsRun looks.encoded.now.moves looks.first looks.behind };
}

impl<'a> EncodedLooks<'a> {
    /// A look at what was encoded, of which nothing is due.
    pub fn new(encoded: &'a EncodedEntities) -> EncodedLooks<'a>
        ensures { result ≡ record { encoded = encoded.now; due = []; place = 0 } }
    {
        EncodedLooks {
            encoded,
            first: 0,
            behind: 0,
        }
    }

    /// Where the move of an entity from one spot to another stands, if that was encoded.
    fn place_of(&self, eid: i32, from: &Spot, to: &Spot) -> Option<usize>
        ensures { IfSome result (IsMoveAt self.now.encoded eid from.now to.now) }
    {
        let moves = self.encoded.moves();
        let Ok(at) = moves.place_near(self.behind, eid) else {
            return None;
        };
        if moves.at(at).is(from, to) {
            Some(at)
        } else {
            None
        }
    }

    /// Makes the frames of the move at the place due, behind the others.
    #[inline]
    fn go_on(&mut self)
        requires { self.old.place < length (entries self.old.encoded.moves) }
        ensures same { self.new.encoded ≡ self.old.encoded }
        ensures due { self.new.due ≡ self.old.due
            ++ frames_between self.old.encoded.moves self.old.place (self.old.place + 1) }
    {
        self.behind = self.encoded.moves().behind(self.behind);
    }

    /// Appends the frames that are due, and makes those of the move at another place due.
    fn begin(&mut self, at: usize, out: &mut Vec<u8>) -> Result<(), NoMemory>
        requires { at < length (entries self.old.encoded.moves) }
        ensures same { self.new.encoded ≡ self.old.encoded }
        ensures due { OnOk result (out.new.items ++ self.new.due
            ≡ (out.old.items ++ self.old.due)
            ++ frames_between self.old.encoded.moves at (at + 1)) }
    {
        self.put_due(out)?;
        self.first = at;
        self.behind = self.encoded.moves().behind(at);
        Ok(())
    }

    /// Makes the frames of an entity's move from one spot to another due, if they were encoded, and
    /// answers whether they were. Those that are due and don't stand beside them are appended.
    pub fn follow(
        &mut self,
        eid: i32,
        from: &Spot,
        to: &Spot,
        out: &mut Vec<u8>,
    ) -> Result<bool, NoMemory>
        requires { AreEncoded self.old.encoded }
        ensures same { self.new.encoded ≡ self.old.encoded }
        ensures due { IfOk result (λ found. out.new.items ++ self.new.due
            ≡ (out.old.items ++ self.old.due)
            ++ (if found then move_bytes eid from.now to.now else [])) }
    {
        let Some(at) = self.place_of(eid, from, to) else {
            return Ok(false);
        };
        if at == self.behind {
            self.go_on();
            return Ok(true);
        }
        self.begin(at, out)?;
        Ok(true)
    }

    /// Appends the frames that are due.
    pub fn put_due(&mut self, out: &mut Vec<u8>) -> Result<(), NoMemory>
        ensures same { self.new.encoded ≡ self.old.encoded }
        ensures none { OnOk result (self.new.due ≡ []) }
        ensures put { OnOk result (out.new.items ≡ out.old.items ++ self.old.due) }
    {
        self.encoded
            .moves()
            .put_between(self.first, self.behind, out)?;
        self.first = self.behind;
        Ok(())
    }

    /// The frames that show an entity as it is to be shown, None exactly where those of it were not
    /// encoded.
    pub fn spawned(&self, row: &Row) -> Option<&'a Bytes>
        ensures { option_copied result ≡ found_spawn self.now.encoded row.now }
    {
        self.encoded.spawned(row)
    }
}
