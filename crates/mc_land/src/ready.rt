ghost use Rattle.std.specs.Prelude.{◌≡◌, ◌++◌, ◌<◌, ◌≤◌, ◌==◌, Bool, not, true, false, nat_lt, ℕ};
ghost use Rattle.std.specs.Prelude.{List, OnOk, OnErr, Some, length, slice_index};
ghost use Rattle.std.specs.Vec.{vec_len, vec_capacity};
ghost use Rattle.std.specs.List.Sorted.{IsPartitionPoint, IsPartitionedBy};
ghost use Rattle.mc_column.specs.Cells.{HasSizes, cell_index};
ghost use Rattle.mc_land.specs.Places.{IsPlace};
ghost use lib.IntN.{pos, ◌+ℤ◌, ◌*ℤ◌};
ghost use Rattle.mc_land.specs.Terrain.{terrain_state};
ghost use Rattle.mc_land.specs.Grown.{own_column};
ghost use Rattle.mc_land.specs.Sums.{changes_in};
ghost use Rattle.mc_land.specs.KeptReady.{bit_of};
ghost use Rattle.mc_land.specs.Ready.{set_cell, settled_ready, touched_cells};
ghost use Rattle.mc_land.specs.ReadyCode.{IsAround, is_at, one_if};
ghost use Rattle.mc_land.specs.Upkeep.{IsWhole, is_touched};

use crate::growing::block_at;
use crate::places::Place;
use crate::terrain::Terrain;
use mc_bytes::NoMemory;
use mc_column::Column;
use std::alloc::Global;
use std::marker::Model;

/// A cell that changed since the last settling.
#[derive(Clone, Copy, Debug, PartialEq, Eq)]
pub struct Touched {
    /// The cell at (x, y, z) of its column is `y * 256 + z * 16 + x`.
    pub index: u16,
    /// The state that it had at the last settling.
    pub was: u16,
}

/// A column that is ready to be looked at. Contracts see it as its place, its terrain, and the
/// column as it is and as it was at the last settling.
#[derive(Drop)]
pub(crate) struct Ready {
    place: Place,
    terrain: Terrain,
    column: Column,
    /// The cells that changed since the last settling, in rising index.
    touched: Vec<Touched>,
    /// How many cells are not the terrain's.
    edits: u32,
}

impl Model for Ready {
    ghost use Rattle.mc_land.specs.KeptReady.{kept_ready, IsKeptReady};
    ghost use Rattle.mc_land.specs.Ready.{ReadyValue};

    ghost Value = { ReadyValue };

    ghost view = { λ ready. kept_ready ready.place ready.terrain ready.column ready.touched.items };

    ghost invariant = { λ ready. IsKeptReady ready.place ready.terrain ready.column
        ready.touched.items ready.edits };
}

impl Ready {
    /// A column of the terrain's own cells, settled as it is. It takes no memory.
    pub(crate) fn new(alloc: Global, place: Place, terrain: Terrain, column: Column) -> Ready
        requires inside { IsPlace place }
        requires own { column ≡ own_column terrain place }
        ensures { result ≡ record {
          place = place;
          terrain = terrain;
          present = column;
          settled = column;
        } }
    {
        Ready {
            place,
            terrain,
            column,
            touched: Vec::new(alloc),
            edits: 0,
        }
    }

    /// Which column it is.
    pub(crate) fn place(&self) -> &Place
        ensures { result.now ≡ self.now.place }
    {
        &self.place
    }

    /// The column as it is.
    pub(crate) fn column(&self) -> &Column
        ensures column { result.now ≡ self.now.present }
        ensures sizes { HasSizes self.now.present }
    {
        &self.column
    }

    /// The state of a cell.
    pub(crate) fn state(&self, x: u8, y: u8, z: u8) -> u16
        requires x_inside { x < 16 }
        requires z_inside { z < 16 }
        ensures { result ≡ slice_index self.now.present.states (cell_index x y z) }
    {
        self.column.get(x, y, z)
    }

    /// The cells that differ from those at the last settling, in rising index.
    pub(crate) fn touched(&self) -> &[Touched]
        ensures { result.now ≡ touched_cells self.now.settled.states self.now.present.states }
    {
        self.touched.as_slice()
    }

    /// Whether a cell differs from that at the last settling.
    pub(crate) fn is_touched(&self) -> bool
        ensures is { result ≡ is_touched (Some self.now) }
        ensures whole { IsWhole self.now }
    {
        !self.touched.is_empty()
    }

    /// How many cells are not the terrain's. It looks at none.
    pub(crate) fn edits(&self) -> u32
        ensures is { result ≡ changes_in self.now }
        ensures few { result ≤ 65536 }
    {
        self.edits
    }

    /// Makes the column the one at the last settling. It takes no memory.
    pub(crate) fn settle(&mut self)
        ensures { self.new ≡ settled_ready self.old }
    {
        self.touched.clear();
    }

    /// Puts a state into a cell.
    pub(crate) fn set(&mut self, x: u8, y: u8, z: u8, state: u16) -> Result<(), NoMemory>
        requires x_inside { x < 16 }
        requires z_inside { z < 16 }
        ensures ok { OnOk result (self.new ≡ set_cell self.old (cell_index x y z) state) }
        ensures err { OnErr result (self.new ≡ self.old) }
    {
        self.touched.reserve(1)?;
        let old = self.column.set(x, y, z, state)?;
        let own = own_state(&self.terrain, &self.place, x, y, z);
        self.edits = self.edits + differs(state, own) - differs(old, own);
        touch(&mut self.touched, index_of(x, y, z), old, state);
        Ok(())
    }
}

/// The terrain's state of a cell of a column.
fn own_state(terrain: &Terrain, place: &Place, x: u8, y: u8, z: u8) -> u16
    requires inside { IsPlace place.now }
    requires x_inside { x < 16 }
    requires z_inside { z < 16 }
    ensures { result ≡ terrain_state terrain.now (place.now.0 *ℤ pos 16 +ℤ pos x) y
        (place.now.1 *ℤ pos 16 +ℤ pos z) }
{
    terrain.state(
        block_at(place.0, usize::from(x)),
        y,
        block_at(place.1, usize::from(z)),
    )
}

/// One for two states that differ.
fn differs(a: u16, b: u16) -> u32
    ensures { result ≡ bit_of (not (a == b)) }
{
    if a == b { 0 } else { 1 }
}

/// The index of a cell in its column.
pub(crate) fn index_of(x: u8, y: u8, z: u8) -> u16
    requires x_inside { x < 16 }
    requires z_inside { z < 16 }
    ensures { result ≡ cell_index x y z }
{
    u16::from(y) * 256 + u16::from(z) * 16 + u16::from(x)
}

/// How many touched cells have a lower index.
fn rank(touched: &[Touched], index: u16) -> usize
    requires { IsPartitionedBy (λ cell. nat_lt cell.index index) touched.now }
    ensures bound { result ≤ length touched.now }
    ensures point { IsPartitionPoint (λ cell. nat_lt cell.index index ≡ true)
        (λ cell. nat_lt cell.index index ≡ false) touched.now result }
{
    touched.partition_point(|cell| cell.index < index)
}

/// Whether the touched cell at a place has this index.
fn is_at(touched: &[Touched], at: usize, index: u16) -> bool
    ensures { result ≡ is_at touched.now at index }
{
    match touched.get(at) {
        Some(cell) => cell.index == index,
        None => false,
    }
}

/// Keeps account of a cell that had a state and got another: it is one of the touched ones, for
/// which there is room, exactly where it is not as it was at the last settling.
fn touch(touched: &mut Vec<Touched>, index: u16, old: u16, state: u16)
    requires sorted { IsPartitionedBy (λ other. nat_lt other.index index) touched.old.items }
    requires room { vec_len touched.old < vec_capacity touched.old }
    ensures { (low high : List Touched) (known : Bool) (cell : Touched) →
        IsAround touched.old.items low high known cell → cell.index ≡ index →
        (known ≡ false → cell.was ≡ old) → touched.new.items ≡ low ++
        (one_if (not (cell.was == state)) cell ++ high) }
{
    let at = rank(touched, index);
    if is_at(touched, at, index) {
        if touched[at].was == state {
            let _gone = touched.remove(at);
        }
        return;
    }
    if old != state {
        touched.insert(at, Touched { index, was: old }).unwrap();
    }
}
