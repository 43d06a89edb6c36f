//! How much there is in a game, and how many items piles are.

ghost use Rattle.std.specs.Prelude.{◌≡◌, ◌≤◌, length};
ghost use Rattle.std.specs.List.{sum_by};
ghost use Rattle.mc_slots.specs.Pile.{count_of};
ghost use Rattle.mc_windows.specs.declared.pack.TheConstants.{PACK_PILES};
ghost use Rattle.mc_play.specs.Census.{kind_items, pack_items};

use mc_entities::EntityKind;
use mc_slots::Pile;
use mc_windows::Pack;

/// How much there is in a game.
#[derive(Clone, Copy, Debug, PartialEq, Eq)]
pub struct Census {
    /// The cells whose state is not the terrain's.
    pub edits: u128,
    /// The items in packs, on cursors, kept for who is not in play, in chests, and lying.
    pub stock: u128,
}

/// How many items a pile is.
fn count_of(pile: &Pile) -> u8
    ensures { result ≡ count_of pile.now }
{
    match pile {
        Pile::Empty => 0,
        Pile::Full(item) => item.count,
    }
}

/// How many items the piles of a pack are.
fn items_of(piles: &[Pile]) -> u16
    requires { length piles.now ≤ PACK_PILES }
    ensures is { result ≡ sum_by count_of piles.now }
    ensures few { result ≤ 9180 }
{
    let mut total: u16 = 0;
    for pile in piles {
        total += u16::from(count_of(pile));
    }
    total
}

/// How many items a pack holds, with what hangs on its cursor.
pub fn pack_items(pack: &Pack) -> u16
    ensures is { result ≡ pack_items count_of pack.now }
    ensures few { result ≤ 9435 }
{
    items_of(&pack.slots) + u16::from(count_of(&pack.cursor))
}

/// How many items an entity is: none, unless it is a dropped one.
pub fn kind_items(kind: &EntityKind) -> u8
    ensures { result ≡ kind_items count_of kind.now }
{
    match kind {
        EntityKind::Dropped { item, .. } => item.count,
        EntityKind::Player { .. } | EntityKind::Mob => 0,
    }
}
