ghost use Rattle.std.specs.Prelude.{◌≡◌, ◌+◌, ◌++◌, ◌∷◌, ◌↔◌, [], None, false, map, IsNone, IfSome};
ghost use Rattle.std.specs.Prelude.{OnOk, OnErr};
ghost use lib.Signed.{◌≤ℤ◌, ◌<ℤ◌};
ghost use lib.IntN.{pos};
ghost use Rattle.std.specs.FinSet as set;
ghost use Rattle.mc_column.specs.Sizes.{cells};
ghost use Rattle.std.specs.Option.{option_copied};
ghost use Rattle.std.specs.FinMap.{find};
ghost use Rattle.mc_land.specs.Places.{IsPlace, place_cmp};
ghost use Rattle.mc_land.specs.Terrain.{terrain_state};
ghost use Rattle.mc_land.specs.KeptLand.{placed, IsIndexed};
ghost use Rattle.mc_land.specs.Land.{block, column_of, dirty_in, new_land, settled_land};
ghost use Rattle.mc_land.specs.Land.{with_ready};
ghost use Rattle.mc_land.specs.Ready.{settled_ready};
ghost use Rattle.mc_land.specs.Touched.{AreTouched};
ghost use Rattle.mc_land.specs.Upkeep.{AreKnown, settled_at};

mod chests;
mod setting;
mod shedding;
mod sums;
mod upkeep;

use crate::growing::grow;
use crate::places::{Place, height_of, place_of, x_inside, z_inside};
use crate::ready::{Ready, Touched};
use crate::sizes::cells_of_column;
use crate::steps::Steps;
use crate::terrain::Terrain;
use mc_bytes::NoMemory;
use mc_column::Column;
use mc_fields::Cell;
use mc_slots::Chest;
pub use setting::{CHEST, is_chest};
use std::alloc::Global;
use std::collections::{BTreeMap, BTreeSet};
use std::marker::Model;
use std::sync::ledger::Ledger;
use upkeep::Upkeep;

/// An endless world of cells: a terrain, and what was changed of it.
///
/// Contracts see it as its terrain, the edits (the cells whose state is not the terrain's), those
/// at the last settling, the chests, and the columns that are ready to be looked at.
#[derive(Drop)]
pub struct Land {
    terrain: Terrain,
    /// In the order in which they were made ready.
    columns: Vec<Ready>,
    /// Where each of them stands.
    index: BTreeMap<Place, usize>,
    /// By column, and by index in that.
    chests: BTreeMap<(Place, u16), Chest>,
    /// What is kept for speed alone.
    upkeep: Upkeep,
}

impl Model for Land {
    ghost use Rattle.mc_land.specs.Land.{LandValue};
    ghost use Rattle.mc_land.specs.LandCode.{coded_land};
    ghost use Rattle.mc_land.specs.KeptLand.{kept_land, placed, IsIndexed, IsKeptLand};
    ghost use Rattle.mc_land.specs.Upkeep.{IsUpkeep};

    ghost Value = { LandValue };

    ghost coded = { coded_land };

    ghost view = { λ land. kept_land land.terrain (placed land.columns.items) land.chests.entries };

    ghost invariant = { λ land. IsKeptLand land.terrain (placed land.columns.items)
        land.chests.entries × IsIndexed land.columns.items land.index.entries
        × IsUpkeep land.columns.items land.upkeep };
}

impl Land {
    /// The terrain alone.
    pub fn new(alloc: Global, terrain: Terrain) -> Land
        ensures { result ≡ new_land terrain }
    {
        Land {
            terrain,
            columns: Vec::new(alloc),
            index: BTreeMap::new(alloc),
            chests: BTreeMap::new(alloc),
            upkeep: Upkeep::new(alloc),
        }
    }

    /// The terrain, which the cells are until they are changed.
    pub fn terrain(&self) -> &Terrain
        ensures { result.now ≡ self.now.terrain }
    {
        &self.terrain
    }

    /// The state of a cell: the one that it was set to, or else the terrain's. It counts one step.
    pub fn block<L: Ledger>(&self, cell: Cell, steps: &mut Steps<L>) -> u16
        requires above { pos 0 ≤ℤ cell.y }
        requires below { cell.y <ℤ pos 256 }
        ensures value { result ≡ block self.now cell.x cell.y cell.z }
        ensures cost { steps.new ≡ steps.old + 1 }
    {
        steps.add(1);
        self.state(&cell)
    }

    /// The state of a cell, without counting a step.
    fn state(&self, cell: &Cell) -> u16
        requires above { pos 0 ≤ℤ cell.now.y }
        requires below { cell.now.y <ℤ pos 256 }
        ensures { result ≡ block self.now cell.now.x cell.now.y cell.now.z }
    {
        let y = height_of(cell);
        match ready_at(&self.columns, &self.index, &place_of(cell)) {
            Some(ready) => ready.state(x_inside(cell), y, z_inside(cell)),
            None => own_state(&self.terrain, cell, y),
        }
    }

    /// A column of cells, None exactly where it is not ready. It counts 65,536 steps.
    pub fn column<L: Ledger>(&self, cx: i32, cz: i32, steps: &mut Steps<L>) -> Option<&Column>
        requires { IsPlace (cx, cz) }
        ensures none { IsNone result ↔ set.contains self.now.ready (cx, cz) ≡ false }
        ensures some { IfSome result (λ column. column.now ≡ column_of self.now (cx, cz)) }
        ensures cost { steps.new ≡ steps.old + cells }
    {
        steps.add(cells_of_column() as u64);
        self.column_at(&(cx, cz))
    }

    /// The column of a place, None where it is not ready, without counting steps.
    fn column_at(&self, place: &Place) -> Option<&Column>
        ensures none { IsNone result ↔ set.contains self.now.ready place.now ≡ false }
        ensures some { IfSome result (λ column. column.now ≡ column_of self.now place.now) }
    {
        match ready_at(&self.columns, &self.index, place) {
            Some(ready) => Some(ready.column()),
            None => None,
        }
    }

    /// The cells of a column whose state differs from that at the last settling, in rising index,
    /// with the states that they had.
    pub fn dirty(&self, cx: i32, cz: i32) -> &[Touched]
        requires { IsPlace (cx, cz) }
        ensures { result.now ≡ dirty_in self.now (cx, cz) }
    {
        self.dirty_at(&(cx, cz))
    }

    /// The dirty cells of the column of a place.
    fn dirty_at(&self, place: &Place) -> &[Touched]
        ensures { result.now ≡ dirty_in self.now place.now }
    {
        match ready_at(&self.columns, &self.index, place) {
            Some(ready) => ready.touched(),
            None => &[],
        }
    }

    /// The columns in which a cell is dirty, by rising place. It looks at no column.
    pub fn touched(&self) -> &BTreeSet<(i32, i32)>
        ensures { AreTouched self.now result.now.keys }
    {
        // The places rise.
        let _many = self.upkeep.touched.len();
        &self.upkeep.touched
    }

    /// Makes a column ready. A ready column stays as it is.
    pub fn ready(&mut self, cx: i32, cz: i32) -> Result<(), NoMemory>
        requires { IsPlace (cx, cz) }
        ensures ok { OnOk result (self.new ≡ with_ready self.old (cx, cz)) }
        ensures err { OnErr result (self.new ≡ self.old) }
    {
        self.ready_place(&(cx, cz))
    }

    /// Makes the column of a place ready.
    fn ready_place(&mut self, place: &Place) -> Result<(), NoMemory>
        requires { IsPlace place.now }
        ensures ok { OnOk result (self.new ≡ with_ready self.old place.now) }
        ensures err { OnErr result (self.new ≡ self.old) }
    {
        if index_at(&self.index, place).is_some() {
            return Ok(());
        }
        let alloc = *self.columns.allocator();
        let column = grow(alloc, &self.terrain, place)?;
        let ready = Ready::new(alloc, *place, self.terrain, column);
        self.upkeep.make_room()?;
        push_ready(&mut self.columns, &mut self.index, ready)?;
        Ok(())
    }

    /// Makes the edits of now those of the last settling. It takes no memory.
    pub fn settle(&mut self)
        ensures { self.new ≡ settled_land self.old }
    {
        settle_touched(&mut self.columns, &self.index, &self.upkeep.touched);
        self.upkeep.touched.clear();
    }
}

/// Adds a ready column of a place that has none. Without memory both are as before.
pub(crate) fn push_ready(
    columns: &mut Vec<Ready>,
    index: &mut BTreeMap<Place, usize>,
    ready: Ready,
) -> Result<(), NoMemory>
    requires indexed { IsIndexed columns.old.items index.old.entries }
    requires new { find place_cmp ready.place index.old.entries ≡ None }
    ensures ok { OnOk result (columns.new.items ≡ columns.old.items ++ ready ∷ []) }
    ensures indexed { IsIndexed columns.new.items index.new.entries }
    ensures err { OnErr result (columns.new.items ≡ columns.old.items) }
{
    columns.reserve(1)?;
    let _none = index.insert(*ready.place(), columns.as_slice().len())?;
    columns.push(ready).unwrap();
    Ok(())
}

/// Settles the columns of places, which are all in which a cell is dirty.
fn settle_touched(
    columns: &mut Vec<Ready>,
    index: &BTreeMap<Place, usize>,
    touched: &BTreeSet<Place>,
)
    requires indexed { IsIndexed columns.old.items index.now.entries }
    requires known { AreKnown columns.old.items touched.now.keys }
    ensures { columns.new.items ≡ map settled_ready columns.old.items }
{
    for place in touched {
        settle_at(columns, index, place);
    }
}

/// Settles the column of a place, if it is ready.
fn settle_at(columns: &mut Vec<Ready>, index: &BTreeMap<Place, usize>, place: &Place)
    requires indexed { IsIndexed columns.old.items index.now.entries }
    ensures settled { columns.new.items ≡ map (settled_at place.now) columns.old.items }
    ensures indexed { IsIndexed columns.new.items index.now.entries }
{
    if let Some(i) = index_at(index, place) {
        let ready = &mut columns[i];
        ready.settle();
    }
}

/// The ready column of a place.
pub(crate) fn ready_at<'a>(
    columns: &'a Vec<Ready>,
    index: &BTreeMap<Place, usize>,
    place: &Place,
) -> Option<&'a Ready>
    requires { IsIndexed columns.now.items index.now.entries }
    ensures { option_copied result ≡ find place_cmp place.now (placed columns.now.items) }
{
    match index_at(index, place) {
        Some(i) => Some(&columns[i]),
        None => None,
    }
}

/// Where the column of a place stands.
pub(crate) fn index_at(index: &BTreeMap<Place, usize>, place: &Place) -> Option<usize>
    ensures { result ≡ find place_cmp place.now index.now.entries }
{
    index.get(place).copied()
}

/// The terrain's state of a cell.
fn own_state(terrain: &Terrain, cell: &Cell, y: u8) -> u16
    ensures { result ≡ terrain_state terrain.now cell.now.x y cell.now.z }
{
    terrain.state(cell.x, y, cell.z)
}
