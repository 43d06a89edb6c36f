//! The moves of entities, each encoded once for all clients of a tick.

ghost use Rattle.std.specs.Prelude.{◌≡◌, ◌++◌, ◌+◌, ◌<◌, IfErr, IfOk, OnErr, OnOk, Some, length};
ghost use lib.IntN.{ℤ};
ghost use Rattle.std.specs.FinMap as map;
ghost use Rattle.mc_told.specs.KeptRows.{IsAt, IsGap};
ghost use Rattle.mc_told.specs.Runs.{AreJoined, IsRun, frames_between, frames_in};

mod fields;

use crate::moved::Moved;
use crate::numbered::{place_near, put_row};
use mc_bytes::NoMemory;
use std::alloc::Global;
use std::marker::Model;

/// By number, the move of an entity. Once their frames are joined, those of moves that stand side
/// by side are appended by one copy.
#[derive(Drop)]
pub struct EncodedMoves {
    /// By rising number.
    rows: Vec<(i32, Moved)>,
    /// The frames of all, one behind the other, once they were joined; else none.
    joined: Vec<u8>,
    /// Where in them those of each begin, and where they end, once they were joined.
    starts: Vec<usize>,
}

impl Model for EncodedMoves {
    ghost use Rattle.std.specs.Coded.{coded_ℤ};
    ghost use Rattle.std.specs.FinMap.{FinMap, code, from_sorted};
    ghost use Rattle.std.specs.Ordering.{int_cmp};
    ghost use Rattle.mc_told.specs.declared.moved.Moved.{Moved};
    ghost use Rattle.mc_told.specs.EntityFrames.{coded_moved};
    ghost use Rattle.mc_told.specs.KeptRows.{IsRising};
    ghost use Rattle.mc_told.specs.Runs.{AreJoined};

    ghost Value = { FinMap int_cmp Moved };

    ghost coded = { code coded_ℤ coded_moved };

    ghost view = { λ moves. from_sorted moves.rows.items };

    ghost invariant = { λ moves. IsRising moves.rows.items
        × AreJoined moves.rows.items moves.joined.items moves.starts.items };
}

/// The frames of moves, one behind the other, and where those of each begin and the last ones end.
fn join_frames(alloc: Global, rows: &[(i32, Moved)]) -> Result<(Vec<u8>, Vec<usize>), NoMemory>
    ensures { IfOk result (λ made. AreJoined rows.now made.0.items made.1.items) }
{
    let mut joined = Vec::new(alloc);
    let mut starts = Vec::with_capacity(alloc, rows.len().saturating_add(1))?;
    starts.push(0)?;
    for row in rows {
        joined.extend_from_slice(row.1.frames.as_slice())?;
        starts.push(joined.len())?;
    }
    Ok((joined, starts))
}

/// Appends the frames of moves, one behind the other.
fn put_frames(rows: &[(i32, Moved)], out: &mut Vec<u8>) -> Result<(), NoMemory>
    ensures { OnOk result (out.new.items ≡ out.old.items ++ frames_in rows.now) }
{
    for row in rows {
        out.extend_from_slice(row.1.frames.as_slice())?;
    }
    Ok(())
}

impl EncodedMoves {
    /// Nothing moved.
    pub fn new(alloc: Global) -> EncodedMoves
        ensures { result ≡ map.empty }
    {
        EncodedMoves {
            rows: Vec::new(alloc),
            joined: Vec::new(alloc),
            starts: Vec::new(alloc),
        }
    }

    /// Puts a move under the number of an entity. Without memory all is as before.
    pub fn put(&mut self, eid: i32, moved: Moved) -> Result<(), NoMemory>
        ensures ok { OnOk result (self.new ≡ map.insert self.old eid moved) }
        ensures err { OnErr result (self.new ≡ self.old) }
    {
        self.joined.clear();
        self.starts.clear();
        put_row(&mut self.rows, eid, moved)
    }

    /// Joins the frames of all moves.
    pub fn join(&mut self, alloc: Global) -> Result<(), NoMemory>
        ensures { self.new ≡ self.old }
    {
        let (joined, starts) = join_frames(alloc, self.rows.as_slice())?;
        self.joined = joined;
        self.starts = starts;
        Ok(())
    }

    /// How many bytes the frames are, once they were joined.
    pub fn size(&self) -> usize {
        self.joined.len()
    }

    /// Where the move of the entity of a number stands, or else where it would go; that is looked
    /// for at one place first.
    #[inline]
    pub fn place_near(&self, near: usize, eid: i32) -> Result<usize, usize>
        ensures found { IfOk result (IsAt (map.entries self.now) eid) }
        ensures absent { IfErr result (IsGap (map.entries self.now) eid) }
    {
        place_near(self.rows.as_slice(), near, eid)
    }

    /// The move at a place.
    #[inline]
    pub fn at(&self, place: usize) -> &Moved
        requires { place < length (map.entries self.now) }
        ensures frames { frames_between self.now place (place + 1) ≡ result.now.frames }
        ensures found { (eid : ℤ) → IsAt (map.entries self.now) eid place →
            Some result.now ≡ map.get self.now eid }
    {
        &self.rows[place].1
    }

    /// The place behind that of a move.
    #[inline]
    pub fn behind(&self, place: usize) -> usize
        requires { place < length (map.entries self.now) }
        ensures { result ≡ place + 1 }
    {
        // It tells that no place is the last number.
        let _many = self.rows.len();
        place + 1
    }

    /// Appends the frames of the moves from one place on, before another place, by one copy where
    /// they were joined.
    #[inline(never)]
    pub fn put_between(
        &self,
        first: usize,
        behind: usize,
        out: &mut Vec<u8>,
    ) -> Result<(), NoMemory>
        requires { IsRun self.now first behind }
        ensures { OnOk result (out.new.items
            ≡ out.old.items ++ frames_between self.now first behind) }
    {
        if behind < self.starts.len() {
            let front = self.joined.as_slice().split_at(self.starts[behind]).0;
            return Ok(out.extend_from_slice(front.split_at(self.starts[first]).1)?);
        }
        put_frames(
            self.rows.as_slice().split_at(behind).0.split_at(first).1,
            out,
        )
    }
}
