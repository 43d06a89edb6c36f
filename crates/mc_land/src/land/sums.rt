ghost use Rattle.std.specs.Prelude.{◌≡◌, ◌≢◌, ◌<◌, ◌≤◌, ℕ, true, Some, IsSome};
ghost use Rattle.std.specs.List.{sum_by};
ghost use Rattle.std.specs.FinMap.{get, len};
ghost use Rattle.mc_column.specs.Sizes.{cells};
ghost use Rattle.mc_slots.specs.Pile.{IsPile, count_of};
ghost use Rattle.mc_land.specs.Places.{Key};
ghost use Rattle.mc_land.specs.Land.{is_chest, state_at, stored_in, terrain_at};
ghost use Rattle.mc_land.specs.Sums.{changes_in};

use super::Land;
use crate::places::Place;
use crate::ready::Ready;
use mc_slots::{CHEST_PILES, Chest, Pile};
use std::collections::BTreeMap;

impl Land {
    /// How many cells have a state that is not the terrain's. It looks at no cell.
    pub fn edited(&self) -> u128
        ensures count { result ≡ len self.now.edits }

        // Each edit is a cell of its column, and not the terrain's.
        ensures inside { (key : Key) → IsSome (get self.now.edits key) → key.1 < cells }
        ensures differ { (key : Key) (state : ℕ) → get self.now.edits key ≡ Some state →
            state ≢ terrain_at self.now.terrain key }
    {
        edited_in(&self.columns)
    }

    /// How many items lie in all chests.
    pub fn stored(&self) -> u128
        ensures items { result ≡ stored_in self.now }

        // Each chest is a cell of its column, and its id is a chest's.
        ensures inside { (key : Key) → IsSome (get self.now.chests key) → key.1 < cells }
        ensures chests { (key : Key) → IsSome (get self.now.chests key) →
            is_chest (state_at self.now.terrain self.now.edits key) ≡ true }
    {
        stored_in(&self.chests)
    }
}

/// How many items lie in chests.
fn stored_in(chests: &BTreeMap<(Place, u16), Chest>) -> u128
    ensures { result ≡ sum_by (λ e. sum_by count_of e.1) chests.now.entries }
{
    let mut total: u128 = 0;
    for (_key, chest) in chests {
        total += u128::from(piles_of(chest));
    }
    total
}

/// How many items lie in a chest.
fn piles_of(chest: &Chest) -> u16
    ensures is { result ≡ sum_by count_of chest.now }
    ensures few { result ≤ 1728 }
{
    let mut total: u16 = 0;
    for i in 0..CHEST_PILES {
        total += u16::from(count_of(&chest.get(i)));
    }
    total
}

/// How many items a pile holds.
fn count_of(pile: &Pile) -> u8
    requires { IsPile pile.now }
    ensures is { result ≡ count_of pile.now }
    ensures few { result ≤ 64 }
{
    match pile {
        Pile::Empty => 0,
        Pile::Full(item) => item.count,
    }
}

/// How many cells of columns have a state that is not the terrain's. It looks at no cell.
fn edited_in(columns: &Vec<Ready>) -> u128
    ensures { result ≡ sum_by changes_in columns.now.items }
{
    let mut total: u128 = 0;
    for ready in columns {
        total += u128::from(ready.edits());
    }
    total
}
