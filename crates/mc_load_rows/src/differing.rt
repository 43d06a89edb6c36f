//! What differs between what a server says of a client and the client's replica.

ghost use Rattle.std.specs.Prelude.{◌≡◌, ◌<◌, IfSome};
ghost use Rattle.mc_land.specs.Places.{IsPlace};

use mc_column::Column;
use mc_entities::{Entity, EntityKind};
use mc_flush::{ClientView, PlayerList};
use mc_land::{Land, Steps};
use mc_model::{BEAT_TICKS, SHOWN_TICKS};
use mc_replica::{Listed, Replica, Seen, SeenKind, SeenWindow};
use mc_slots::{Pile, Slot};
use mc_windows::Pack;
use std::marker::Brand;
use std::sync::ledger::{Blank, Ledger};

/// The first part in which a replica differs from what the server says; None where it is the same.
pub fn difference(view: &ClientView<'_>, seen: &Replica) -> Option<&'static str> {
    if !is_time(view.age, seen) {
        return Some("time");
    }
    if !are_columns(view, seen) {
        return Some("blocks");
    }
    if !are_entities(view, seen) {
        return Some("entities");
    }
    if !are_listed(view.list, seen.listed()) {
        return Some("players");
    }
    if !is_pack(view.pack, seen.window()) {
        return Some("pack");
    }
    // Nobody says anything in a load.
    if !view.lines.is_empty() || !seen.chat().is_empty() {
        return Some("lines");
    }
    None
}

/// Whether the age and the beat are those that clients are told at an age.
fn is_time(age: u64, seen: &Replica) -> bool {
    seen.age() == i64::try_from(age - age % SHOWN_TICKS).ok()
        && seen.beat() == i32::try_from(age / BEAT_TICKS).ok()
}

/// Whether just the columns in view are there, with the cells of the land.
fn are_columns(view: &ClientView<'_>, seen: &Replica) -> bool {
    let mut count = 0usize;
    for (cx, cz) in view.view.all() {
        if !is_column(view.land, seen, cx, cz) {
            return false;
        }
        count = count.saturating_add(1);
    }
    count == seen.columns()
}

/// Whether the column at a place is that of the land.
fn is_column(land: &Land, seen: &Replica, cx: i32, cz: i32) -> bool {
    match seen.column(cx, cz) {
        Some(column) => is_of_land(land, cx, cz, column),
        None => false,
    }
}

/// Whether the land has this column at a place.
fn is_of_land(land: &Land, cx: i32, cz: i32, seen: &Column) -> bool {
    match place_of(cx, cz) {
        Some(place) => is_seen_at::<Brand>(land, place, seen, Blank::new(1)),
        None => false,
    }
}

/// A column's place, where a land may be asked of it.
fn place_of(cx: i32, cz: i32) -> Option<(i32, i32)>
    ensures { IfSome result (λ place. IsPlace place) }
{
    if cx < -1_875_010 || 1_875_010 < cx {
        return None;
    }
    if cz < -1_875_010 || 1_875_010 < cz {
        return None;
    }
    Some((cx, cz))
}

/// Whether the column at a place is this one, looked at with a counter of its own.
fn is_seen_at<L: Ledger>(land: &Land, place: (i32, i32), seen: &Column, blank: Blank) -> bool
    requires name { blank.name ≡ L.name }
    requires parts { blank.parts ≡ L.parts }
    requires some { 0 < blank.parts }
    requires place { IsPlace place }
{
    let mut steps = Steps::<L>::new(blank);
    match land.column(place.0, place.1, &mut steps) {
        Some(column) => are_cells(column, seen) && are_low(column) && are_low(seen),
        None => false,
    }
}

/// Whether the lowest cells of columns are alike, and the biomes.
fn are_cells(column: &Column, seen: &Column) -> bool {
    for x in 0..16 {
        for z in 0..16 {
            if column.biome(x, z) != seen.biome(x, z) || !are_over(column, seen, x, z) {
                return false;
            }
        }
    }
    true
}

/// Whether the lowest cells over each other are alike.
fn are_over(column: &Column, seen: &Column, x: u8, z: u8) -> bool
    requires x_inside { x < 16 }
    requires z_inside { z < 16 }
{
    for y in 0..16 {
        if column.get(x, y, z) != seen.get(x, y, z) {
            return false;
        }
    }
    true
}

/// Whether a column is air above its lowest section.
fn are_low(column: &Column) -> bool {
    for i in 1..16 {
        if column.section(i).is_some() {
            return false;
        }
    }
    true
}

/// Whether just the others in view are there, each as it is.
fn are_entities(view: &ClientView<'_>, seen: &Replica) -> bool {
    let mut count = 0usize;
    for entity in view.folk.all() {
        if is_other(view, entity) {
            if !is_seen(entity, seen) {
                return false;
            }
            count = count.saturating_add(1);
        }
    }
    count == seen.entities().len()
}

/// Whether an entity is not the client's own, and in its view.
fn is_other(view: &ClientView<'_>, entity: &Entity) -> bool {
    entity.eid != view.me && view.view.has(entity.spot.x >> 9, entity.spot.z >> 9)
}

/// Whether an entity is seen as it is.
fn is_seen(entity: &Entity, seen: &Replica) -> bool {
    match seen.entity(entity.eid) {
        Some(other) => other.spot() == entity.spot && is_kind(entity, other),
        None => false,
    }
}

/// Whether an entity is seen as what it is, with what it holds or is, and where its head looks.
fn is_kind(entity: &Entity, seen: &Seen) -> bool {
    match &entity.kind {
        EntityKind::Player { uuid, held } => {
            seen.kind() == SeenKind::Player(*uuid)
                && is_slot(held, seen.held())
                && seen.head() == entity.spot.yaw
        }
        EntityKind::Dropped { item, .. } => {
            seen.kind() == SeenKind::Dropped && is_slot(&Pile::Full(*item), seen.item())
        }
        EntityKind::Mob => seen.kind() == SeenKind::Mob && seen.head() == entity.spot.yaw,
    }
}

/// Whether a slot shows a pile.
fn is_slot(pile: &Pile, slot: &Slot) -> bool {
    match slot {
        Slot::Empty => *pile == Pile::Empty,
        Slot::Full(stack) => match pile {
            Pile::Empty => false,
            Pile::Full(item) => {
                stack.id == item.id
                    && stack.damage == item.damage
                    && stack.count.cast_unsigned() == item.count
                    && stack.tag.is_none()
            }
        },
    }
}

/// Whether just the players in play are listed, under their names.
fn are_listed(list: &PlayerList, rows: &[Listed]) -> bool {
    for row in rows {
        match list.get(row.uuid) {
            Some(name) if name.as_str() == row.name.as_str() => {}
            _ => return false,
        }
    }
    rows.len() == list.len()
}

/// Whether the slots are those of the pack, no window is shown, and the cursor holds what it does.
fn is_pack(pack: &Pack, window: &SeenWindow) -> bool {
    for (i, pile) in pack.slots.iter().enumerate() {
        if i >= 36 || !is_slot(pile, window.pack(i)) {
            return false;
        }
    }
    window.number() == pack.window && is_slot(&pack.cursor, window.cursor())
}
