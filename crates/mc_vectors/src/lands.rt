//! Lands: `terrain CALL TERRAIN ..` asks a terrain, and `land CALL ..` works on the land that the
//! rows before it left.

ghost use Rattle.std.specs.Prelude.{◌≡◌, ◌<◌, IfSome};
ghost use lib.Signed.{◌≤ℤ◌, ◌<ℤ◌};
ghost use lib.IntN.{pos};
ghost use Rattle.mc_land.specs.Places.{IsPlace};

use crate::columns::cell;
use crate::slots::{put_chest, set_pile};
use mc_column::Column;
use mc_fields::Cell;
use mc_land::{Land, LandFault, Steps, Terrain, Touched};
use mc_rows::{Answer, Words, look_up};
use std::alloc::Global;
use std::marker::Brand;
use std::mem::replace;
use std::sync::ledger::{Blank, Ledger};

/// The next words as a terrain.
fn terrain_in(words: &mut Words<'_>) -> Terrain {
    match words.word() {
        "flat" => Terrain::Flat,
        "hills" => Terrain::Hills(words.number()),
        "isle" => Terrain::Isle,
        _ => {
            words.fail();
            Terrain::Flat
        }
    }
}

/// The next words as a cell.
fn cell_in(words: &mut Words<'_>) -> Cell {
    Cell {
        x: words.number(),
        y: words.number(),
        z: words.number(),
    }
}

/// Answers a call of a terrain.
pub fn terrain(words: &mut Words<'_>, answer: &mut Answer) {
    let call = words.word();
    let terrain = terrain_in(words);
    let x = words.number();
    match call {
        "state" => {
            let y = words.number();
            answer.word(terrain.state(x, y, words.number()));
        }
        "biome" => answer.word(terrain.biome(x, words.number())),
        "top" => answer.word(top(&terrain, x, words.number())),
        _ => words.fail(),
    }
}

/// How high the highest cell that is not air is.
fn top(terrain: &Terrain, x: i32, z: i32) -> u8 {
    for y in (0..=255).rev() {
        if terrain.state(x, y, z) != 0 {
            return y;
        }
    }
    0
}

/// A land, and the terrain that it was made of.
#[derive(Drop)]
pub struct Ground {
    terrain: Terrain,
    land: Land,
}

impl Ground {
    /// A land of this terrain alone.
    pub fn new(alloc: Global, terrain: Terrain) -> Ground {
        Ground {
            terrain,
            land: Land::new(alloc, terrain),
        }
    }
}

/// A call of the land.
#[derive(Clone, Copy)]
enum Call {
    New,
    Settle,
    Shed,
    Edited,
    Stored,
    Set,
    Block,
    Chest,
    Fill,
    Ready,
    Dirty,
    Touched,
    Column,
}

/// The calls by their words.
const CALLS: [(&str, Call); 13] = [
    ("new", Call::New),
    ("settle", Call::Settle),
    ("shed", Call::Shed),
    ("edited", Call::Edited),
    ("stored", Call::Stored),
    ("set", Call::Set),
    ("block", Call::Block),
    ("chest", Call::Chest),
    ("fill", Call::Fill),
    ("ready", Call::Ready),
    ("dirty", Call::Dirty),
    ("touched", Call::Touched),
    ("column", Call::Column),
];

/// The call that a word names.
fn call_of(name: &str) -> Option<Call> {
    look_up(&CALLS, name)
}

/// Answers a row of the land.
pub fn land(ground: &mut Ground, words: &mut Words<'_>, answer: &mut Answer) {
    match call_of(words.word()) {
        Some(named) => answer_call(named, ground, words, answer),
        None => words.fail(),
    }
}

/// Answers a call of the land.
fn answer_call(call: Call, ground: &mut Ground, words: &mut Words<'_>, answer: &mut Answer) {
    match call {
        Call::New => renew(ground, words),
        Call::Settle => ground.land.settle(),
        Call::Shed => shed(&mut ground.land, words),
        Call::Edited => answer.word(ground.land.edited()),
        Call::Stored => answer.word(ground.land.stored()),
        Call::Set => set(&mut ground.land, words, answer),
        Call::Block => block(&ground.land, words, answer),
        Call::Chest => chest(&ground.land, words, answer),
        Call::Fill => fill(&mut ground.land, words),
        Call::Ready => ready(&mut ground.land, words, answer),
        Call::Dirty => dirty(&ground.land, words, answer),
        Call::Touched => touched(&ground.land, answer),
        Call::Column => column(ground, words, answer),
    }
}

/// Makes a land of the next words' terrain alone.
fn renew(ground: &mut Ground, words: &mut Words<'_>) {
    let new = Ground::new(words.alloc, terrain_in(words));
    drop(replace(ground, new));
}

/// Sets a cell, and puts the state that it had.
fn set(land: &mut Land, words: &mut Words<'_>, answer: &mut Answer) {
    let cell = cell_in(words);
    let state = words.number::<u16>();
    match land.set(cell, state % 4096) {
        Ok(old) => answer.word(old),
        Err(LandFault::Outside) => answer.word("Outside"),
        Err(LandFault::NoMemory) => answer.lose(),
    }
}

/// Settles the land, and makes the columns not ready that are as the terrain has them and that no
/// view reaches. The view is the next words: its middle column, and how many columns it reaches.
fn shed(land: &mut Land, words: &mut Words<'_>) {
    let view = (words.number(), words.number(), words.number());
    land.settle();
    land.shed(&[view]);
}

/// Puts the state of a cell.
fn block(land: &Land, words: &mut Words<'_>, answer: &mut Answer) {
    let cell = cell_in(words);
    if 0 <= cell.y && cell.y < 256 {
        answer.word(counted::<Brand>(land, cell, Blank::new(1)));
    } else {
        words.fail();
    }
}

/// The state of a cell, looked at with a counter of its own.
fn counted<L: Ledger>(land: &Land, cell: Cell, blank: Blank) -> u16
    requires name { blank.name ≡ L.name }
    requires parts { blank.parts ≡ L.parts }
    requires some { 0 < blank.parts }
    requires above { pos 0 ≤ℤ cell.y }
    requires below { cell.y <ℤ pos 256 }
{
    let mut steps = Steps::<L>::new(blank);
    land.block(cell, &mut steps)
}

/// Puts what the chest at a cell holds, where there is one.
fn chest(land: &Land, words: &mut Words<'_>, answer: &mut Answer) {
    match land.chest(cell_in(words)) {
        Some(chest) => put_chest(chest, answer),
        None => answer.word("none"),
    }
}

/// Puts a pile into the chest at a cell.
fn fill(land: &mut Land, words: &mut Words<'_>) {
    match land.chest_mut(cell_in(words)) {
        Some(chest) => set_pile(chest, words),
        None => words.fail(),
    }
}

/// The next words as a column.
fn place_in(words: &mut Words<'_>) -> Option<(i32, i32)>
    ensures { IfSome result (λ place. IsPlace place) }
{
    let (cx, cz) = (words.number::<i32>(), words.number::<i32>());
    if cx < -1_875_010 || 1_875_010 < cx {
        return None;
    }
    if cz < -1_875_010 || 1_875_010 < cz {
        return None;
    }
    Some((cx, cz))
}

/// Makes a column ready.
fn ready(land: &mut Land, words: &mut Words<'_>, answer: &mut Answer) {
    match place_in(words) {
        Some(place) => answer.needs(land.ready(place.0, place.1)),
        None => words.fail(),
    }
}

/// Puts the cells of a column that changed.
fn dirty(land: &Land, words: &mut Words<'_>, answer: &mut Answer) {
    match place_in(words) {
        Some(place) => put_dirty(land.dirty(place.0, place.1), answer),
        None => words.fail(),
    }
}

/// Puts the columns in which a cell is dirty.
fn touched(land: &Land, answer: &mut Answer) {
    answer.word('[');
    for place in land.touched() {
        answer.word(place.0);
        answer.put(':');
        answer.put(place.1);
    }
    answer.put(']');
}

/// Puts how a column differs from the terrain.
fn column(ground: &Ground, words: &mut Words<'_>, answer: &mut Answer) {
    match place_in(words) {
        Some(place) => shown::<Brand>(ground, place, answer, Blank::new(1)),
        None => words.fail(),
    }
}

/// Puts cells that changed, with the states that they had.
fn put_dirty(dirty: &[Touched], answer: &mut Answer) {
    answer.word('[');
    for cell in dirty {
        answer.word(cell.index);
        answer.put(':');
        answer.put(cell.was);
    }
    answer.put(']');
}

/// Puts the cells of a column that differ from the terrain, with their states, where it is ready.
fn shown<L: Ledger>(ground: &Ground, place: (i32, i32), answer: &mut Answer, blank: Blank)
    requires name { blank.name ≡ L.name }
    requires parts { blank.parts ≡ L.parts }
    requires some { 0 < blank.parts }
    requires place { IsPlace place }
{
    let mut steps = Steps::<L>::new(blank);
    match ground.land.column(place.0, place.1, &mut steps) {
        Some(column) => put_changed(&ground.terrain, column, place, answer),
        None => answer.word("none"),
    }
}

/// Puts the cells of a column that differ from the terrain, with their states, and how many biomes
/// differ from the terrain's, where any does.
fn put_changed(terrain: &Terrain, column: &Column, place: (i32, i32), answer: &mut Answer) {
    let mut others: u32 = 0;
    answer.word('[');
    for i in 0..65_536u32 {
        let (x, y, z) = cell(i);
        let (east, south) = (block_at(place.0, x), block_at(place.1, z));
        let state = column.get(x, y, z);
        if state != terrain.state(east, y, south) {
            answer.word(i);
            answer.put(':');
            answer.put(state);
        }
        if y == 0 && column.biome(x, z) != terrain.biome(east, south) {
            others = others.saturating_add(1);
        }
    }
    answer.put(']');
    if others > 0 {
        answer.put(", biomes differ");
        answer.word(others);
    }
}

/// The block that one of the sixteen along an axis is at, in a column of that axis.
fn block_at(c: i32, at: u8) -> i32 {
    c.saturating_mul(16).saturating_add(i32::from(at))
}
