//! What a client is told of all entities at a tick.

ghost use Rattle.std.specs.Prelude.{◌≡◌, ◌≤◌, ◌++◌, ◌∷◌, [], IfOk, OnErr, OnOk, length, not};
ghost use Rattle.std.specs.Int.{w32};
ghost use Rattle.std.specs.List.{AllByRecursion, filter};
ghost use Rattle.std.specs.FinMap as map;
ghost use lib.IntN.{ℤ, pos};
ghost use mir.Val.{SFits};
ghost use Rattle.mc_packets.specs.declared.down.Down.TheVariants as down;
ghost use Rattle.mc_entities.specs.Kinds.{IsKind};
ghost use Rattle.mc_entities.specs.Numbers.{Rise};
ghost use Rattle.mc_entities.specs.Folk.{eid_of};
ghost use Rattle.mc_entities.specs.Kept.{AreKinds};
ghost use Rattle.mc_model.specs.Delta.{destroying};
ghost use Rattle.mc_model.specs.Sight.{others};
ghost use Rattle.mc_told.specs.EntityFrames.{AreEncoded};
ghost use Rattle.mc_sending.specs.Sending.{play_bytes};
ghost use Rattle.mc_told.specs.Telling.{entity_frames, gone_from, rows_in, rows_packets, told_now};
ghost use Rattle.mc_told.specs.Telling.{with_rows};

use crate::EncodedEntities;
use crate::encoded_looks::EncodedLooks;
use crate::known::put_shown;
use crate::row::is_in;
use crate::unchanged::are_as_told;
use bytes::Bytes;
use mc_bytes::NoMemory;
use mc_entities::{Entity, Folk};
use mc_model::DESTROYED_MAX;
use mc_packets::{Down, Varints};
use mc_sending::put_made;
use mc_view::{Area, Looks, Tracker, ViewSet};
use std::alloc::Global;

/// For how many bytes there is room at first, at most, where a client is shown entities: about as
/// many as those of four hundred moves.
const FIRST_SIZE: usize = 4_096;

/// What one client is shown of the entities.
#[derive(Drop)]
pub struct EntityView<'w> {
    /// The entities.
    pub folk: &'w Folk,
    /// What was encoded of them for all clients.
    pub encoded: &'w EncodedEntities,
    /// The number of the client's own entity.
    pub me: i32,
    /// The columns that the client is shown.
    pub view: ViewSet,
}

/// Numbers as a packet holds them.
fn numbers_of(alloc: Global, eids: &[i32]) -> Result<Varints, NoMemory>
    ensures value { IfOk result (λ numbers. numbers ≡ eids.now) }
    ensures fits { IfOk result (λ numbers. AllByRecursion (SFits w32) numbers) }
{
    let mut numbers = Varints::new(alloc);
    for eid in eids {
        numbers.push(*eid)?;
    }
    Ok(numbers)
}

/// Appends the frame that takes entities away.
fn put_destroy(eids: &[i32], out: &mut Vec<u8>) -> Result<(), NoMemory>
    requires few { length eids.now ≤ DESTROYED_MAX }
    ensures { OnOk result (out.new.items
        ≡ out.old.items ++ play_bytes (down.Destroy eids.now ∷ [])) }
{
    let numbers = numbers_of(*out.allocator(), eids)?;
    put_made(Down::Destroy(numbers), out)
}

/// Appends the frames that take entities away, each of as many as a packet holds.
fn put_destroys(eids: &[i32], out: &mut Vec<u8>) -> Result<(), NoMemory>
    ensures { OnOk result (out.new.items ≡ out.old.items ++ play_bytes (destroying eids.now)) }
{
    let mut rest = eids;
    while !rest.is_empty() {
        let (part, later) = rest.split_at(rest.len().min(DESTROYED_MAX));
        put_destroy(part, out)?;
        rest = later;
    }
    Ok(())
}

/// The frames that take entities away.
fn destroy_piece(alloc: Global, gone: &[i32]) -> Result<Bytes, NoMemory>
    ensures { IfOk result (λ piece. piece ≡ play_bytes (destroying gone.now)) }
{
    let mut bytes = Vec::new(alloc);
    put_destroys(gone, &mut bytes)?;
    Ok(Bytes::from_vec(bytes)?)
}

/// Tells a client that was told something of entities what it is to be told of one, and keeps that:
/// nothing of its own, and of one that is not in its view. What is sent are the frames that are
/// appended, and those that are due then behind them.
fn put_entity(
    view: &EntityView<'_>,
    area: &Area,
    entity: &Entity,
    encoded: &mut EncodedLooks<'_>,
    told: &mut Looks<'_>,
    now: &mut Tracker,
    out: &mut Vec<u8>,
) -> Result<(), NoMemory>
    requires area { area.now ≡ view.now.view }
    requires kind { IsKind entity.now.kind }
    requires frames { AreEncoded encoded.old.encoded }
    ensures encoded { encoded.new.encoded ≡ encoded.old.encoded }
    ensures same { OnOk result (told.new ≡ told.old) }
    ensures sent { OnOk result (out.new.items ++ encoded.new.due
        ≡ (out.old.items ++ encoded.old.due) ++ play_bytes (rows_packets told.old
        (rows_in view.now.view (others view.now.me (entity.now ∷ []))))) }
    ensures now { OnOk result (now.new ≡ with_rows now.old
        (rows_in view.now.view (others view.now.me (entity.now ∷ [])))) }
{
    if entity.eid == view.me {
        return Ok(());
    }
    if !is_in(area, entity) {
        return Ok(());
    }
    put_shown(encoded, entity, told, now, out)?;
    Ok(())
}

/// Appends what a client that was told something of entities is to be told of these, and keeps
/// that. What it was told is gone through beside them, by rising number.
#[inline(never)]
fn put_entities(
    view: &EntityView<'_>,
    entities: &[Entity],
    told: &Tracker,
    now: &mut Tracker,
    out: &mut Vec<u8>,
) -> Result<(), NoMemory>
    requires kinds { AreKinds entities.now }
    requires frames { AreEncoded view.now.encoded.now }
    ensures sent { OnOk result (out.new.items ≡ out.old.items ++ play_bytes (rows_packets told.now
        (rows_in view.now.view (others view.now.me entities.now)))) }
    ensures now { OnOk result (now.new ≡ with_rows now.old
        (rows_in view.now.view (others view.now.me entities.now))) }
{
    let area = Area::of(&view.view);
    let mut encoded = EncodedLooks::new(view.encoded);
    let mut looks = told.looks();
    for entity in entities {
        put_entity(view, &area, entity, &mut encoded, &mut looks, now, out)?;
    }
    encoded.put_due(out)
}

/// The frames of the entities that a client is to be shown, which are kept.
fn shown_piece(
    alloc: Global,
    view: &EntityView<'_>,
    entities: &[Entity],
    told: &Tracker,
    now: &mut Tracker,
) -> Result<Bytes, NoMemory>
    requires kinds { AreKinds entities.now }
    requires frames { AreEncoded view.now.encoded.now }
    ensures sent { IfOk result (λ piece. piece ≡ play_bytes (rows_packets told.now
        (rows_in view.now.view (others view.now.me entities.now)))) }
    ensures now { OnOk result (now.new ≡ with_rows now.old
        (rows_in view.now.view (others view.now.me entities.now))) }
{
    let mut bytes = Vec::with_capacity(alloc, view.encoded.moves().size().min(FIRST_SIZE))?;
    put_entities(view, entities, told, now, &mut bytes)?;
    Ok(Bytes::from_vec(bytes)?)
}

/// The numbers of all entities that were told.
fn all_numbers(alloc: Global, told: &Tracker) -> Result<Vec<i32>, NoMemory>
    ensures { IfOk result (λ eids. eids.items ≡ map.keys told.now) }
{
    let mut eids = Vec::new(alloc);
    let mut i = 0;
    while let Some(eid) = told.known(i) {
        eids.push(eid)?;
        i += 1;
    }
    Ok(eids)
}

/// The numbers of those entities that were told and are so no more. Where nobody is told now, as of
/// a client that went far away, none is looked up.
fn lost_numbers(alloc: Global, told: &Tracker, now: &Tracker) -> Result<Vec<i32>, NoMemory>
    ensures { IfOk result (λ eids. eids.items
        ≡ filter (λ (eid : ℤ). not (map.contains_key now.now eid)) (map.keys told.now)) }
{
    if now.known(0).is_none() {
        return all_numbers(alloc, told);
    }
    told.lost(alloc, now)
}

/// The frames that take away the entities that were told and are so no more.
fn lost_piece(alloc: Global, told: &Tracker, now: &Tracker) -> Result<Bytes, NoMemory>
    ensures { IfOk result (λ piece. piece ≡ play_bytes (destroying
        (filter (λ (eid : ℤ). not (map.contains_key now.now eid)) (map.keys told.now)))) }
{
    let lost = lost_numbers(alloc, told, now)?;
    destroy_piece(alloc, lost.as_slice())
}

/// The frames of the entities that a client is to be shown no more, and those of the others, which
/// are then what it was told of. Where it was told of all just what it is to be shown, it takes no
/// more than to find that. Else entities and what was told of them are gone through side by side.
/// Without memory what it was told of is as before.
pub fn tell(
    alloc: Global,
    view: &EntityView<'_>,
    told: &mut Tracker,
) -> Result<(Bytes, Bytes), NoMemory>
    requires { AreEncoded view.now.encoded.now }
    ensures gone { IfOk result (λ pieces. pieces.0 ≡ play_bytes (destroying (gone_from told.old
        (others view.now.me view.now.folk.now.state.entities) view.now.view))) }
    ensures shown { IfOk result (λ pieces. pieces.1 ≡ play_bytes (entity_frames told.old
        (others view.now.me view.now.folk.now.state.entities) view.now.view)) }
    ensures told { OnOk result (told.new ≡ told_now
        (others view.now.me view.now.folk.now.state.entities) view.now.view) }
    ensures err { OnErr result (told.new ≡ told.old) }
    ensures rise { Rise eid_of (pos 0) view.now.folk.now.state.entities
        (pos view.now.folk.now.state.given) }
{
    let entities = view.folk.all();
    if are_as_told(view, entities, told) {
        return Ok((Bytes::new(), Bytes::new()));
    }
    let mut now = told.anew()?;
    let shown = shown_piece(alloc, view, entities, told, &mut now)?;
    let destroyed = lost_piece(alloc, told, &now)?;
    *told = now;
    Ok((destroyed, shown))
}
