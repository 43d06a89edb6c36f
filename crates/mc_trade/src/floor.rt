//! The items that lie where a client sees them.

use crate::pile::{Pile, pile_in, pile_of};
use mc_fields::Spot;
use mc_replica::{Replica, SeenKind};
use mc_rows::Words;

/// What lies somewhere, in 1/32 blocks, under the number of an entity.
#[derive(Clone, Copy)]
pub struct Lying {
    eid: i32,
    x: i32,
    y: i32,
    z: i32,
    pile: Pile,
}

/// What the next words say that lies somewhere: a number, a place and a pile.
pub fn lying_in(words: &mut Words<'_>) -> Lying {
    Lying {
        eid: words.number(),
        x: words.number(),
        y: words.number(),
        z: words.number(),
        pile: pile_in(words),
    }
}

/// Whether this lies there.
pub fn is_lying(world: &Replica, item: &Lying) -> bool {
    match world.entity(item.eid) {
        Some(seen) => is_at(&seen.spot(), item) && pile_of(seen.item()) == item.pile,
        None => false,
    }
}

/// Whether an item's place is that of a spot.
fn is_at(spot: &Spot, item: &Lying) -> bool {
    spot.x == item.x && spot.y == item.y && spot.z == item.z
}

/// How many items of a sort lie there.
pub fn count_lying(world: &Replica, id: i16, damage: i16) -> u32 {
    let mut number = 0u32;
    for seen in world.entities() {
        if seen.kind() == SeenKind::Dropped {
            number = number.saturating_add(count_of(&pile_of(seen.item()), id, damage));
        }
    }
    number
}

/// How many items of a sort a pile has.
fn count_of(pile: &Pile, id: i16, damage: i16) -> u32 {
    if pile.id == id && pile.damage == damage {
        u32::from(pile.count.cast_unsigned())
    } else {
        0
    }
}
