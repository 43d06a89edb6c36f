//! Cells, items, entities and packs of a row: words that are read, and calls on them.

ghost use Rattle.std.specs.Prelude.{IsTrue};
ghost use Rattle.std.specs.Option.{IfSome};
ghost use Rattle.mc_slots.specs.Pile.{IsItem, IsPile};
ghost use Rattle.mc_entities.specs.Kinds.{IsKind};

use mc_entities::{EntityKind, Folk, FolkFault};
use mc_fields::{Cell, Spot};
use mc_land::{Land, LandFault};
use mc_rows::{Answer, Words};
use mc_slots::{Item, Pile};
use mc_windows::Pack;

/// The next words as a cell.
pub fn cell_in(words: &mut Words<'_>) -> Cell {
    Cell {
        x: words.number(),
        y: words.number(),
        z: words.number(),
    }
}

/// The next words as a spot.
pub fn spot_in(words: &mut Words<'_>) -> Spot {
    Spot {
        x: words.number(),
        y: words.number(),
        z: words.number(),
        yaw: words.number(),
        pitch: words.number(),
    }
}

/// Whether the world holds such an item.
fn is_worldly(item: &Item) -> bool
    ensures { IsTrue result → IsItem item.now }
{
    if item.id < 1 || 255 < item.id {
        return false;
    }
    if item.damage < 0 || 15 < item.damage {
        return false;
    }
    1 <= item.count && item.count <= 64
}

/// The next words as an item that the world holds.
fn item_in(words: &mut Words<'_>) -> Option<Item>
    ensures { IfSome result IsItem }
{
    let item = Item {
        id: words.number(),
        damage: words.number(),
        count: words.number(),
    };
    if is_worldly(&item) { Some(item) } else { None }
}

/// Sets a cell.
pub fn set_cell(land: &mut Land, words: &mut Words<'_>, answer: &mut Answer) {
    let cell = cell_in(words);
    let state = words.number::<u16>();
    if state >= 4096 {
        words.fail();
        return;
    }
    match land.set(cell, state) {
        Ok(_) => {}
        Err(LandFault::Outside) => words.fail(),
        Err(LandFault::NoMemory) => answer.lose(),
    }
}

/// Adds an entity where the next words say.
fn add_entity(folk: &mut Folk, kind: EntityKind, words: &mut Words<'_>, answer: &mut Answer)
    requires { IsKind kind }
{
    match folk.spawn(kind, spot_in(words)) {
        Ok(_) => {}
        Err(FolkFault::NoMemory) => answer.lose(),
        Err(_) => words.fail(),
    }
}

/// Lets an item lie somewhere.
pub fn drop_item(folk: &mut Folk, words: &mut Words<'_>, answer: &mut Answer) {
    match item_in(words) {
        Some(item) => add_entity(folk, EntityKind::Dropped { item, born: 0 }, words, answer),
        None => words.fail(),
    }
}

/// Lets a player whose hand is empty stand somewhere.
pub fn add_player(folk: &mut Folk, words: &mut Words<'_>, answer: &mut Answer) {
    let uuid = words.number();
    let held = Pile::Empty;
    add_entity(folk, EntityKind::Player { uuid, held }, words, answer);
}

/// Changes what a player holds.
fn set_held(folk: &mut Folk, eid: i32, held: Pile, words: &mut Words<'_>)
    requires { IsPile held }
{
    match folk.get(eid) {
        Some(entity) => match entity.kind {
            EntityKind::Player { uuid, .. } => {
                folk.set_kind(eid, EntityKind::Player { uuid, held });
            }
            _ => words.fail(),
        },
        None => words.fail(),
    }
}

/// Gives a player something to hold.
pub fn fill_hand(folk: &mut Folk, words: &mut Words<'_>) {
    let eid = words.number();
    match item_in(words) {
        Some(item) => set_held(folk, eid, Pile::Full(item), words),
        None => words.fail(),
    }
}

/// Gives a player nothing to hold.
pub fn empty_hand(folk: &mut Folk, words: &mut Words<'_>) {
    let eid = words.number();
    set_held(folk, eid, Pile::Empty, words);
}

/// Lets another item lie where one does.
pub fn change_item(folk: &mut Folk, words: &mut Words<'_>) {
    let eid = words.number::<i32>();
    let Some(item) = item_in(words) else {
        words.fail();
        return;
    };
    match folk.get(eid) {
        Some(entity) => match entity.kind {
            EntityKind::Dropped { born, .. } => {
                folk.set_kind(eid, EntityKind::Dropped { item, born });
            }
            _ => words.fail(),
        },
        None => words.fail(),
    }
}

/// Takes an entity out.
pub fn take_out(folk: &mut Folk, words: &mut Words<'_>) {
    if folk.remove(words.number()).is_none() {
        words.fail();
    }
}

/// Puts an entity somewhere else.
pub fn move_to(folk: &mut Folk, words: &mut Words<'_>) {
    let eid = words.number();
    if !folk.place(eid, spot_in(words)) {
        words.fail();
    }
}

/// A pack with an item in a place of it.
pub fn filled(pack: Pack, words: &mut Words<'_>) -> Pack {
    let mut pack = pack;
    let place = words.number::<usize>();
    match item_in(words) {
        Some(item) if place < pack.slots.len() => pack.put(place, Pile::Full(item)),
        _ => words.fail(),
    }
    pack
}
