//! What was told of entities, gone through one after another.

ghost use Rattle.std.specs.Prelude.{◌≡◌, ◌∷◌, ◌↔◌, [], IsTrue, IsFalse, Some, slice_get};
ghost use lib.IntN.{ℤ};
ghost use Rattle.mc_view.specs.KeptTold.{pair_of, pairs_of};

use crate::tracker::Entry;
use mc_fields::Spot;
use mc_slots::Pile;
use std::marker::Model;

/// What a client was told of those entities that were not gone past. Contracts see it as the list
/// of these, each with its number.
#[derive(Drop)]
pub struct ToldRest<'a> {
    /// By rising number.
    entries: &'a [Entry],
}

impl<'a> Model for ToldRest<'a> {
    ghost use Rattle.std.specs.Prelude.{List};
    ghost use lib.IntN.{ℤ};
    ghost use Rattle.mc_fields.specs.declared.position.Spot.{Spot};
    ghost use Rattle.mc_slots.specs.declared.pile.Pile.{Pile};
    ghost use Rattle.mc_view.specs.KeptTold.{pairs_of};

    ghost Value = { List (ℤ × (Spot × Pile)) };

    ghost view = { λ rest. pairs_of rest.entries.now };
}

impl<'a> ToldRest<'a> {
    /// All of these.
    pub(crate) fn new(entries: &'a [Entry]) -> ToldRest<'a>
        ensures { result ≡ pairs_of entries.now }
    {
        ToldRest { entries }
    }

    /// Goes past the first one where the client was told just that of it: whether it was.
    #[inline]
    pub fn pass(&mut self, eid: i32, spot: &Spot, pile: &Pile) -> bool
        ensures is { IsTrue result ↔ (slice_get self.old 0 ≡ Some (eid, (spot.now, pile.now))) }
        ensures passed { IsTrue result → self.old ≡ (eid, (spot.now, pile.now)) ∷ self.new }
        ensures stays { IsFalse result → self.new ≡ self.old }
    {
        let Some((first, rest)) = self.entries.split_first() else {
            return false;
        };
        if !is_told(first, eid, spot, pile) {
            return false;
        }
        self.entries = rest;
        true
    }

    /// Whether all were gone past.
    pub fn is_empty(&self) -> bool
        ensures { IsTrue result ↔ (self.now ≡ []) }
    {
        self.entries.is_empty()
    }
}

/// Whether an entry is that of an entity of a number, spot and pile.
fn is_told(entry: &Entry, eid: i32, spot: &Spot, pile: &Pile) -> bool
    ensures { IsTrue result ↔ (pair_of entry.now ≡ (eid, (spot.now, pile.now))) }
{
    if entry.eid != eid {
        return false;
    }
    if !is_spot(&entry.spot, spot) {
        return false;
    }
    entry.pile == *pile
}

/// Whether two spots are one.
fn is_spot(spot: &Spot, other: &Spot) -> bool
    ensures { IsTrue result ↔ (spot.now ≡ other.now) }
{
    *spot == *other
}
