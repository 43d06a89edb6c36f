//! How a client is told of the pile that an entity holds or is.

ghost use Rattle.std.specs.Prelude.{◌≡◌, ◌++◌, ◌∷◌, [], ℕ, IfOk, OnOk};
ghost use Rattle.mc_slots.specs.Pile.{IsPile, slot_of};
ghost use Rattle.mc_model.specs.declared.seen.SeenKind.TheVariants as seen_kinds;
ghost use Rattle.mc_model.specs.Delta.{no_flags, pile_told};
ghost use Rattle.mc_sending.specs.Sending.{play_bytes};

use crate::row::Row;
use mc_bytes::NoMemory;
use mc_model::SeenKind;
use mc_packets::{Down, MetaEntry, MetaValue, Metas};
use mc_sending::put_made;
use mc_slots::Pile;
use std::alloc::Global;

/// The place in a dropped item's metadata of what lies there.
const ITEM_INDEX: u8 = 10;

/// The place in a player's metadata of its flags.
const FLAGS_INDEX: u8 = 0;

/// The place of what a player holds among what it wears.
const HELD: i16 = 0;

/// The metadata of one entry.
fn metas_of(alloc: Global, index: u8, value: MetaValue) -> Result<Metas, NoMemory>
    ensures { IfOk result (λ metas. metas ≡ record { index = index; value = value } ∷ []) }
{
    let mut metas = Metas::new(alloc);
    metas.push(MetaEntry { index, value })?;
    Ok(metas)
}

/// The metadata of a player and of a mob: none of its flags is set.
pub fn no_flags(alloc: Global) -> Result<Metas, NoMemory>
    ensures { IfOk result (λ metas. metas ≡ no_flags) }
{
    metas_of(alloc, FLAGS_INDEX, MetaValue::Byte(0))
}

/// Appends the frame that says what lies there.
fn put_lying(eid: i32, pile: Pile, out: &mut Vec<u8>) -> Result<(), NoMemory>
    requires { IsPile pile }
    ensures { OnOk result (out.new.items ≡ out.old.items ++ play_bytes
        (pile_told eid seen_kinds.Dropped (slot_of pile))) }
{
    let value = MetaValue::Slot(pile.slot());
    let metas = metas_of(*out.allocator(), ITEM_INDEX, value)?;
    put_made(Down::Meta(eid, metas), out)
}

/// Appends the frame that says what a player holds.
fn put_held(eid: i32, pile: Pile, out: &mut Vec<u8>) -> Result<(), NoMemory>
    requires { IsPile pile }
    ensures { (uuid : ℕ) → OnOk result (out.new.items ≡ out.old.items ++ play_bytes
        (pile_told eid (seen_kinds.Player uuid) (slot_of pile))) }
{
    put_made(Down::Equipment(eid, HELD, pile.slot()), out)
}

/// Appends the frame that says which pile an entity holds or is; none of a mob, which has none.
pub fn put_pile(row: &Row, out: &mut Vec<u8>) -> Result<(), NoMemory>
    requires { IsPile row.now.pile }
    ensures { OnOk result (out.new.items ≡ out.old.items ++ play_bytes
        (pile_told row.now.eid row.now.kind (slot_of row.now.pile))) }
{
    match row.kind {
        SeenKind::Player(_) => put_held(row.eid, row.pile, out),
        SeenKind::Dropped => put_lying(row.eid, row.pile, out),
        SeenKind::Mob => Ok(()),
    }
}
