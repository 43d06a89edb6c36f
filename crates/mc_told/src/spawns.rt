//! How a client is shown an entity that it does not know.

ghost use Rattle.std.specs.Prelude.{◌≡◌, ◌++◌, ℕ, IfOk, OnOk};
ghost use Rattle.mc_slots.specs.Pile.{IsPile, slot_of};
ghost use Rattle.mc_model.specs.Delta.{hand_packets, id_in_hand};
ghost use Rattle.mc_model.specs.declared.seen.SeenKind.TheVariants as seen_kinds;
ghost use Rattle.mc_sending.specs.Sending.{play_bytes};
ghost use Rattle.mc_told.specs.EntityFrames.{AreEncoded, spawn_bytes};

use crate::encoded_looks::EncodedLooks;
use crate::packets::{head_look, mob, object, player};
use crate::piles::{no_flags, put_pile};
use crate::row::Row;
use bytes::Bytes;
use mc_bytes::NoMemory;
use mc_model::SeenKind;
use mc_sending::put_made;
use mc_slots::Pile;
use std::alloc::Global;

/// The id of what is in a hand, 0 for an empty one.
fn id_in_hand(pile: &Pile) -> i16
    ensures { result ≡ id_in_hand (slot_of pile.now) }
{
    match pile {
        Pile::Empty => 0,
        Pile::Full(item) => item.id,
    }
}

/// Appends the frames that show a dropped item.
fn put_dropped(row: &Row, out: &mut Vec<u8>) -> Result<(), NoMemory>
    requires pile { IsPile row.now.pile }
    requires kind { row.now.kind ≡ seen_kinds.Dropped }
    ensures { OnOk result (out.new.items ≡ out.old.items ++ spawn_bytes row.now) }
{
    put_made(object(row.eid, &row.spot), out)?;
    put_pile(row, out)?;
    Ok(())
}

/// Appends the frame that says what is in a hand, unless it is empty.
fn put_hand(row: &Row, out: &mut Vec<u8>) -> Result<(), NoMemory>
    requires pile { IsPile row.now.pile }
    ensures { (uuid : ℕ) → row.now.kind ≡ seen_kinds.Player uuid →
        OnOk result (out.new.items ≡ out.old.items ++ play_bytes
        (hand_packets row.now.eid uuid (slot_of row.now.pile))) }
{
    match row.pile {
        Pile::Empty => Ok(()),
        Pile::Full(_) => put_pile(row, out),
    }
}

/// Appends the frames that show a player.
fn put_player(row: &Row, uuid: u128, out: &mut Vec<u8>) -> Result<(), NoMemory>
    requires pile { IsPile row.now.pile }
    requires kind { row.now.kind ≡ seen_kinds.Player uuid }
    ensures { OnOk result (out.new.items ≡ out.old.items ++ spawn_bytes row.now) }
{
    let flags = no_flags(*out.allocator())?;
    let held = id_in_hand(&row.pile);
    put_made(player(row.eid, uuid, &row.spot, held, flags), out)?;
    put_made(head_look(row.eid, row.spot.yaw), out)?;
    put_hand(row, out)?;
    Ok(())
}

/// Appends the frame that shows a mob.
fn put_mob(row: &Row, out: &mut Vec<u8>) -> Result<(), NoMemory>
    requires { row.now.kind ≡ seen_kinds.Mob }
    ensures { OnOk result (out.new.items ≡ out.old.items ++ spawn_bytes row.now) }
{
    let flags = no_flags(*out.allocator())?;
    put_made(mob(row.eid, &row.spot, flags), out)?;
    Ok(())
}

/// Appends the frames that show an entity.
fn put_own(row: &Row, out: &mut Vec<u8>) -> Result<(), NoMemory>
    requires { IsPile row.now.pile }
    ensures { OnOk result (out.new.items ≡ out.old.items ++ spawn_bytes row.now) }
{
    match row.kind {
        SeenKind::Player(uuid) => put_player(row, uuid, out),
        SeenKind::Dropped => put_dropped(row, out),
        SeenKind::Mob => put_mob(row, out),
    }
}

/// The frames that show an entity to a client that does not know it.
pub fn spawn_piece(alloc: Global, row: &Row) -> Result<Bytes, NoMemory>
    requires { IsPile row.now.pile }
    ensures { IfOk result (λ piece. piece ≡ spawn_bytes row.now) }
{
    let mut bytes = Vec::new(alloc);
    put_own(row, &mut bytes)?;
    Ok(Bytes::from_vec(bytes)?)
}

/// Appends the frames that show an entity to a client that does not know it: those that were
/// encoded, where they show it so, by one copy.
pub fn put_new(encoded: &EncodedLooks<'_>, row: &Row, out: &mut Vec<u8>) -> Result<(), NoMemory>
    requires pile { IsPile row.now.pile }
    requires frames { AreEncoded encoded.now.encoded }
    ensures { OnOk result (out.new.items ≡ out.old.items ++ spawn_bytes row.now) }
{
    match encoded.spawned(row) {
        Some(frames) => Ok(out.extend_from_slice(frames)?),
        None => put_own(row, out),
    }
}
