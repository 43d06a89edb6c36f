//! Looks at piles.

ghost use Rattle.std.specs.Prelude.{◌≡◌};
ghost use Rattle.mc_slots.specs.Pile.{count_of, is_sort};
ghost use Rattle.mc_windows.specs.Moves.{sort_of};
ghost use Rattle.mc_windows.specs.Clicks.{are_alike, is_empty};

use mc_slots::{Item, Pile, alike};

/// Whether there is nothing in a place.
pub(crate) fn is_empty(pile: Pile) -> bool
    ensures { result ≡ is_empty pile }
{
    matches!(pile, Pile::Empty)
}

/// How many are in a pile.
pub(crate) fn count(pile: Pile) -> u8
    ensures { result ≡ count_of pile }
{
    match pile {
        Pile::Empty => 0,
        Pile::Full(item) => item.count,
    }
}

/// Whether two items are of one sort.
pub(crate) fn is_one_sort(a: Item, b: Item) -> bool
    ensures { result ≡ is_sort (sort_of a) b }
{
    alike(a, b)
}

/// Whether two piles hold items of one sort.
pub(crate) fn are_alike(a: Pile, b: Pile) -> bool
    ensures { result ≡ are_alike a b }
{
    match (a, b) {
        (Pile::Full(a), Pile::Full(b)) => is_one_sort(a, b),
        _ => false,
    }
}
