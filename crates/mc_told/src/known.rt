//! What a client is told of one entity.

ghost use Rattle.std.specs.Prelude.{◌≡◌, ◌++◌, OnOk, Some};
ghost use Rattle.mc_slots.specs.Pile.{IsPile, slot_of};
ghost use Rattle.mc_entities.specs.Kinds.{IsKind};
ghost use Rattle.mc_model.specs.Delta.{entity_packets, pile_packets};
ghost use Rattle.mc_told.specs.EntityFrames.{AreEncoded, spawn_bytes};
ghost use Rattle.mc_sending.specs.Sending.{play_bytes};
ghost use Rattle.mc_told.specs.Telling.{entity_row, kind_of, pile_of, row_packets, told_as, with_row};

use crate::encoded_looks::EncodedLooks;
use crate::moves::{put_moves, put_own};
use crate::piles::put_pile;
use crate::row::{Row, entity_row, holds};
use crate::spawns::put_new;
use mc_bytes::NoMemory;
use mc_entities::Entity;
use mc_fields::Spot;
use mc_slots::Pile;
use mc_view::{Looks, Tracker, form};

/// Appends the frame that says which pile an entity holds or is, where that is another one.
fn put_other(row: &Row, was: &Pile, out: &mut Vec<u8>) -> Result<(), NoMemory>
    requires { IsPile row.now.pile }
    ensures { OnOk result (out.new.items ≡ out.old.items ++ play_bytes
        (pile_packets row.now.eid row.now.kind (slot_of was.now) (slot_of row.now.pile))) }
{
    if *was != row.pile {
        put_pile(row, out)?;
    }
    Ok(())
}

/// Appends what differs of a row of which a client was told where it was and which pile it held or
/// was.
fn put_changed(row: &Row, spot: &Spot, pile: &Pile, out: &mut Vec<u8>) -> Result<(), NoMemory>
    requires pile { IsPile row.now.pile }
    ensures sent { OnOk result (out.new.items ≡ out.old.items ++ play_bytes
        (entity_packets row.now.eid (Some (told_as row.now.kind (spot.now, pile.now)))
        (told_as row.now.kind (row.now.spot, row.now.pile)))) }
{
    put_own(row.eid, &row.spot, form(*spot, row.spot), out)?;
    put_other(row, pile, out)?;
    Ok(())
}

/// Appends what differs of an entity whose pile is not the one that a client was told, and keeps
/// what it is told now.
#[inline(never)]
fn put_exchanged(
    entity: &Entity,
    spot: &Spot,
    pile: &Pile,
    now: &mut Tracker,
    out: &mut Vec<u8>,
) -> Result<(), NoMemory>
    requires kind { IsKind entity.now.kind }
    ensures sent { OnOk result (out.new.items ≡ out.old.items ++ play_bytes
        (entity_packets entity.now.eid
        (Some (told_as (kind_of entity.now.kind) (spot.now, pile.now)))
        (told_as (kind_of entity.now.kind) (entity.now.spot, pile_of entity.now.kind)))) }
    ensures now { OnOk result (now.new ≡ with_row now.old (entity_row entity.now)) }
{
    let row = entity_row(entity);
    now.put(row.eid, &row.spot, &row.pile)?;
    put_changed(&row, spot, pile, out)
}

/// Tells what differs of an entity of which a client was told where it was and which pile it held
/// or was, and keeps what it is told now. Most hold what they held.
fn put_known(
    encoded: &mut EncodedLooks<'_>,
    entity: &Entity,
    spot: &Spot,
    pile: &Pile,
    now: &mut Tracker,
    out: &mut Vec<u8>,
) -> Result<(), NoMemory>
    requires kind { IsKind entity.now.kind }
    requires frames { AreEncoded encoded.old.encoded }
    ensures same { encoded.new.encoded ≡ encoded.old.encoded }
    ensures sent { OnOk result (out.new.items ++ encoded.new.due
        ≡ (out.old.items ++ encoded.old.due) ++ play_bytes (entity_packets entity.now.eid
        (Some (told_as (kind_of entity.now.kind) (spot.now, pile.now)))
        (told_as (kind_of entity.now.kind) (entity.now.spot, pile_of entity.now.kind)))) }
    ensures now { OnOk result (now.new ≡ with_row now.old (entity_row entity.now)) }
{
    if !holds(&entity.kind, pile) {
        encoded.put_due(out)?;
        return put_exchanged(entity, spot, pile, now, out);
    }
    now.put(entity.eid, &entity.spot, pile)?;
    put_moves(encoded, entity.eid, spot, &entity.spot, out)
}

/// Appends what shows an entity of which a client was told nothing, and keeps what it is told.
#[inline(never)]
fn put_unknown(
    encoded: &EncodedLooks<'_>,
    entity: &Entity,
    now: &mut Tracker,
    out: &mut Vec<u8>,
) -> Result<(), NoMemory>
    requires kind { IsKind entity.now.kind }
    requires frames { AreEncoded encoded.now.encoded }
    ensures sent { OnOk result (out.new.items
        ≡ out.old.items ++ spawn_bytes (entity_row entity.now)) }
    ensures now { OnOk result (now.new ≡ with_row now.old (entity_row entity.now)) }
{
    let row = entity_row(entity);
    now.put(row.eid, &row.spot, &row.pile)?;
    put_new(encoded, &row, out)
}

/// Tells a client that was told something of entities what it is to be told of one, and keeps that.
/// What is sent are the frames that are appended, and those that are due then behind them.
pub fn put_shown(
    encoded: &mut EncodedLooks<'_>,
    entity: &Entity,
    told: &mut Looks<'_>,
    now: &mut Tracker,
    out: &mut Vec<u8>,
) -> Result<(), NoMemory>
    requires kind { IsKind entity.now.kind }
    requires frames { AreEncoded encoded.old.encoded }
    ensures encoded { encoded.new.encoded ≡ encoded.old.encoded }
    ensures same { OnOk result (told.new ≡ told.old) }
    ensures sent { OnOk result (out.new.items ++ encoded.new.due
        ≡ (out.old.items ++ encoded.old.due)
        ++ play_bytes (row_packets told.old (entity_row entity.now))) }
    ensures now { OnOk result (now.new ≡ with_row now.old (entity_row entity.now)) }
{
    match told.find(entity.eid) {
        Some((spot, pile)) => put_known(encoded, entity, spot, pile, now, out),
        None => {
            encoded.put_due(out)?;
            put_unknown(encoded, entity, now, out)
        }
    }
}
