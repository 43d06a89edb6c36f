use mc_bytes::NoMemory;
use mc_fields::{write_i8, write_i16, write_u8};
use mc_rows::Words;
use mc_slots::Slot;

/// What lies in a place: so many of an item.
#[derive(Clone, Copy, PartialEq, Eq)]
pub struct Pile {
    pub id: i16,
    pub count: i8,
    pub damage: i16,
}

/// Nothing.
pub const NOTHING: Pile = Pile {
    id: -1,
    count: 0,
    damage: 0,
};

/// Something with a tag, which no row has.
const TAGGED: Pile = Pile {
    id: -2,
    count: 0,
    damage: 0,
};

/// What a slot shows.
pub fn pile_of(slot: &Slot) -> Pile {
    match slot {
        Slot::Empty => NOTHING,
        Slot::Full(stack) if stack.tag.is_some() => TAGGED,
        Slot::Full(stack) => Pile {
            id: stack.id,
            count: stack.count,
            damage: stack.damage,
        },
    }
}

/// The pile of the next words: `-`, or an id, a count and a damage.
pub fn pile_in(words: &mut Words<'_>) -> Pile {
    if words.is_next("-") {
        return NOTHING;
    }
    Pile {
        id: words.number(),
        count: words.number(),
        damage: words.number(),
    }
}

/// Puts a pile as a slot, without a tag.
pub fn put_pile(pile: Pile, out: &mut Vec<u8>) -> Result<(), NoMemory> {
    write_i16(pile.id, out)?;
    if pile.id < 0 {
        return Ok(());
    }
    write_i8(pile.count, out)?;
    write_i16(pile.damage, out)?;
    write_u8(0, out)
}
