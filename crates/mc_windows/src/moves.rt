//! What one move between two places does to their piles.

ghost use Rattle.std.specs.Prelude.{◌≡◌};
ghost use Rattle.mc_slots.specs.Pile.{IsPile};
ghost use Rattle.mc_slots.specs.declared.pile.Pile.TheVariants.{Full};
ghost use Rattle.mc_windows.specs.declared.moves.How.TheVariants.{Put, Merge};
ghost use Rattle.mc_windows.specs.Moves.{effect, poured};

use crate::piles::is_one_sort;
use crate::place::Place;
use mc_slots::{Item, PILE_MAX, Pile, split};

/// How piles move from one place to another.
#[derive(Clone, Copy)]
pub(crate) enum How {
    /// So many at most onto an empty place; onto another nothing.
    Put(u8),
    /// So many at most onto a pile of the same item, up to 64; onto another nothing.
    Merge(u8),
    /// Each in the place of the other.
    Swap,
}

/// A move from one place to another.
#[derive(Clone, Copy)]
pub(crate) struct Move {
    pub how: How,
    pub from: Place,
    pub to: Place,
}

impl How {
    /// What the move leaves of the first pile, and makes of the second.
    pub(crate) fn effect(self, from: Pile, to: Pile) -> (Pile, Pile)
        requires from_is { IsPile from }
        requires to_is { IsPile to }
        ensures piles { result ≡ effect self from to }
        ensures range { IsPile result.0 × IsPile result.1 }
    {
        match self {
            How::Put(n) => put(n, from, to),
            How::Merge(n) => merge(n, from, to),
            How::Swap => (to, from),
        }
    }
}

/// Puts so many at most onto an empty place.
fn put(n: u8, from: Pile, to: Pile) -> (Pile, Pile)
    requires from_is { IsPile from }
    requires to_is { IsPile to }
    ensures piles { result ≡ effect (Put n) from to }
    ensures range { IsPile result.0 × IsPile result.1 }
{
    let Pile::Empty = to else {
        return (from, to);
    };
    let mut left = from;
    let taken = split(&mut left, n);
    (left, taken)
}

/// Merges so many at most onto a pile of the same item.
fn merge(n: u8, from: Pile, to: Pile) -> (Pile, Pile)
    requires from_is { IsPile from }
    requires to_is { IsPile to }
    ensures piles { result ≡ effect (Merge n) from to }
    ensures range { IsPile result.0 × IsPile result.1 }
{
    match (from, to) {
        (Pile::Full(item), Pile::Full(other)) => merge_items(n, item, other),
        _ => (from, to),
    }
}

/// Merges so many at most of an item onto another, where they are of one sort.
fn merge_items(n: u8, from: Item, onto: Item) -> (Pile, Pile)
    requires from_is { IsPile (Full from) }
    requires onto_is { IsPile (Full onto) }
    ensures piles { result ≡ effect (Merge n) (Full from) (Full onto) }
    ensures range { IsPile result.0 × IsPile result.1 }
{
    if is_one_sort(from, onto) {
        return pour(n, from, onto);
    }
    (Pile::Full(from), Pile::Full(onto))
}

/// Pours so many at most of an item onto another of the same sort.
fn pour(n: u8, from: Item, onto: Item) -> (Pile, Pile)
    requires from_is { IsPile (Full from) }
    requires onto_is { IsPile (Full onto) }
    ensures piles { result ≡ poured n from onto }
    ensures range { IsPile result.0 × IsPile result.1 }
{
    let room = n.min(PILE_MAX.saturating_sub(onto.count));
    let count = room.min(from.count);
    let mut left = Pile::Full(from);
    let _poured = split(&mut left, room);
    let full = Item {
        count: onto.count + count,
        ..onto
    };
    (left, Pile::Full(full))
}
