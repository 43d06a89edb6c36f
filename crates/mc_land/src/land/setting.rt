ghost use Rattle.std.specs.Prelude.{◌≡◌, ◌<◌, ◌↔◌, true, false, length, slice_set, slice_index_or};
ghost use Rattle.std.specs.Prelude.{unsigned_abs, IfOk, OnOk, OnErr, IsErrOf};
ghost use Rattle.mc_column.specs.Cells.{cell_index};
ghost use Rattle.mc_land.specs.declared.fault.LandFault.TheVariants as land_faults;
ghost use Rattle.mc_land.specs.Places.{IsPlace, is_inside, key_of};
ghost use Rattle.mc_land.specs.KeptLand.{IsIndexed, IsPut};
ghost use Rattle.mc_land.specs.Ready.{ReadyValue, set_cell};
ghost use Rattle.mc_land.specs.Land.{block, is_chest, with_block};
ghost use Rattle.mc_land.specs.Upkeep.{IsUpkeep};

use crate::fault::LandFault;
use crate::growing::grow;
use crate::land::upkeep::{Upkeep, keep_touched};
use crate::land::{Land, index_at, push_ready};
use crate::places::{Place, height_of, is_inside, key_of, place_of, x_inside, z_inside};
use crate::ready::Ready;
use crate::terrain::Terrain;
use mc_bytes::NoMemory;
use mc_fields::Cell;
use mc_slots::Chest;
use std::collections::BTreeMap;

impl Land {
    /// Sets a cell to a state and answers the one that it had. Its column is ready then. Where its
    /// id becomes 54 there is an empty chest, and where it ceases to be the chest is given up.
    ///
    /// `Outside` where y is not 0 to 255, or x or z is past 30,000,000 in size. On an error the
    /// land is as before.
    pub fn set(&mut self, cell: Cell, state: u16) -> Result<u16, LandFault>
        requires { state < 4096 }
        ensures outside { IsErrOf result land_faults.Outside ↔ is_inside cell.x cell.y cell.z ≡
            false }
        ensures old { IfOk result (λ old. old ≡ block self.old cell.x cell.y cell.z) }
        ensures ok { OnOk result (self.new ≡
            with_block self.old (key_of cell.x (unsigned_abs cell.y) cell.z) state) }
        ensures err { OnErr result (self.new ≡ self.old) }
    {
        self.set_cell(&cell, state)
    }

    /// Sets a cell, or refuses one that lies outside.
    fn set_cell(&mut self, cell: &Cell, state: u16) -> Result<u16, LandFault>
        ensures outside { IsErrOf result land_faults.Outside ↔
            is_inside cell.now.x cell.now.y cell.now.z ≡ false }
        ensures old { IfOk result (λ old. old ≡ block self.old cell.now.x cell.now.y cell.now.z) }
        ensures ok { OnOk result (self.new ≡
            with_block self.old (key_of cell.now.x (unsigned_abs cell.now.y) cell.now.z) state) }
        ensures err { OnErr result (self.new ≡ self.old) }
    {
        if !is_inside(cell) {
            return Err(LandFault::Outside);
        }
        Ok(self.put(cell, state)?)
    }

    /// Sets a cell of the world.
    fn put(&mut self, cell: &Cell, state: u16) -> Result<u16, NoMemory>
        requires { is_inside cell.now.x cell.now.y cell.now.z ≡ true }
        ensures old { IfOk result (λ old. old ≡ block self.old cell.now.x cell.now.y cell.now.z) }
        ensures ok { OnOk result (self.new ≡
            with_block self.old (key_of cell.now.x (unsigned_abs cell.now.y) cell.now.z) state) }
        ensures err { OnErr result (self.new ≡ self.old) }
    {
        let old = self.state(cell);
        match (is_chest(old), is_chest(state)) {
            (false, true) => self.put_chest(cell, state)?,
            (true, false) => self.put_over_chest(cell, state)?,
            _ => self.put_alike(cell, state)?,
        }
        Ok(old)
    }

    /// Sets a cell that is no chest to one, with nothing in it.
    fn put_chest(&mut self, cell: &Cell, state: u16) -> Result<(), NoMemory>
        requires inside { is_inside cell.now.x cell.now.y cell.now.z ≡ true }
        requires was { is_chest (block self.old cell.now.x cell.now.y cell.now.z) ≡ false }
        requires is { is_chest state ≡ true }
        ensures ok { OnOk result (self.new ≡
            with_block self.old (key_of cell.now.x (unsigned_abs cell.now.y) cell.now.z) state) }
        ensures err { OnErr result (self.new ≡ self.old) }
    {
        let key = key_of(cell);
        let _none = self.chests.insert(key, Chest::new())?;
        match put_state(
            &self.terrain,
            &mut self.columns,
            &mut self.index,
            &mut self.upkeep,
            cell,
            state,
        ) {
            Ok(()) => Ok(()),
            Err(NoMemory) => {
                let _chest = self.chests.remove(&key);
                Err(NoMemory)
            }
        }
    }

    /// Sets a cell that is a chest to something else, and gives up the chest.
    fn put_over_chest(&mut self, cell: &Cell, state: u16) -> Result<(), NoMemory>
        requires inside { is_inside cell.now.x cell.now.y cell.now.z ≡ true }
        requires is { is_chest state ≡ false }
        ensures ok { OnOk result (self.new ≡
            with_block self.old (key_of cell.now.x (unsigned_abs cell.now.y) cell.now.z) state) }
        ensures err { OnErr result (self.new ≡ self.old) }
    {
        put_state(
            &self.terrain,
            &mut self.columns,
            &mut self.index,
            &mut self.upkeep,
            cell,
            state,
        )?;
        let _chest = self.chests.remove(&key_of(cell));
        Ok(())
    }

    /// Sets a cell that was a chest and stays one, or was none and becomes none.
    fn put_alike(&mut self, cell: &Cell, state: u16) -> Result<(), NoMemory>
        requires inside { is_inside cell.now.x cell.now.y cell.now.z ≡ true }
        requires alike { is_chest (block self.old cell.now.x cell.now.y cell.now.z) ≡
            is_chest state }
        ensures ok { OnOk result (self.new ≡
            with_block self.old (key_of cell.now.x (unsigned_abs cell.now.y) cell.now.z) state) }
        ensures err { OnErr result (self.new ≡ self.old) }
    {
        put_state(
            &self.terrain,
            &mut self.columns,
            &mut self.index,
            &mut self.upkeep,
            cell,
            state,
        )?;
        Ok(())
    }
}

/// The id of a chest.
pub const CHEST: u16 = 54;

/// Whether a state is a chest's.
pub fn is_chest(state: u16) -> bool
    ensures { result ≡ is_chest state }
{
    state / 16 == CHEST
}

/// Puts a state into a cell of a column, which is made ready where it is not. Without memory all is
/// as before, but what is kept for speed alone.
fn put_state(
    terrain: &Terrain,
    columns: &mut Vec<Ready>,
    index: &mut BTreeMap<Place, usize>,
    upkeep: &mut Upkeep,
    cell: &Cell,
    state: u16,
) -> Result<(), NoMemory>
    requires inside { is_inside cell.now.x cell.now.y cell.now.z ≡ true }
    requires indexed { IsIndexed columns.old.items index.old.entries }
    requires upkeep { IsUpkeep columns.old.items upkeep.old }
    ensures indexed { IsIndexed columns.new.items index.new.entries }
    ensures upkeep { IsUpkeep columns.new.items upkeep.new }
    ensures ok { OnOk result (IsPut terrain.now (key_of cell.now.x (unsigned_abs cell.now.y)
        cell.now.z).0 (key_of cell.now.x (unsigned_abs cell.now.y) cell.now.z).1 state
        columns.old.items columns.new.items) }
    ensures err { OnErr result (columns.new.items ≡ columns.old.items) }
{
    let place = place_of(cell);
    upkeep.staying = 0;
    upkeep.touched.insert(place)?;
    let done = put_cell(terrain, columns, index, cell, state);
    keep_touched(columns, index, &mut upkeep.touched, &place);
    done
}

/// Puts a state into a cell of a column, which is made ready where it is not. Without memory all is
/// as before.
fn put_cell(
    terrain: &Terrain,
    columns: &mut Vec<Ready>,
    index: &mut BTreeMap<Place, usize>,
    cell: &Cell,
    state: u16,
) -> Result<(), NoMemory>
    requires inside { is_inside cell.now.x cell.now.y cell.now.z ≡ true }
    requires indexed { IsIndexed columns.old.items index.old.entries }
    ensures indexed { IsIndexed columns.new.items index.new.entries }
    ensures ok { OnOk result (IsPut terrain.now (key_of cell.now.x (unsigned_abs cell.now.y)
        cell.now.z).0 (key_of cell.now.x (unsigned_abs cell.now.y) cell.now.z).1 state
        columns.old.items columns.new.items) }
    ensures err { OnErr result (columns.new.items ≡ columns.old.items) }
{
    let place = place_of(cell);
    match index_at(index, &place) {
        Some(i) => set_ready(columns, i, cell, state)?,
        None => {
            let alloc = *columns.allocator();
            let column = grow(alloc, terrain, &place)?;
            let mut ready = Ready::new(alloc, place, *terrain, column);
            set_in(&mut ready, cell, state)?;
            push_ready(columns, index, ready)?;
        }
    }
    Ok(())
}

/// Puts a state into a cell of the ready column at a place in the list.
fn set_ready(columns: &mut Vec<Ready>, i: usize, cell: &Cell, state: u16) -> Result<(), NoMemory>
    requires there { i < length columns.old.items }
    requires inside { is_inside cell.now.x cell.now.y cell.now.z ≡ true }
    ensures ok { OnOk result ((d : ReadyValue) → columns.new.items ≡ slice_set columns.old.items i
        (set_cell (slice_index_or columns.old.items i d)
        (key_of cell.now.x (unsigned_abs cell.now.y) cell.now.z).1 state)) }
    ensures err { OnErr result (columns.new.items ≡ columns.old.items) }
{
    let ready = &mut columns[i];
    set_in(ready, cell, state)?;
    Ok(())
}

/// Puts a state into a cell of a ready column.
fn set_in(ready: &mut Ready, cell: &Cell, state: u16) -> Result<(), NoMemory>
    requires { is_inside cell.now.x cell.now.y cell.now.z ≡ true }
    ensures ok { OnOk result (ready.new ≡
        set_cell ready.old (key_of cell.now.x (unsigned_abs cell.now.y) cell.now.z).1 state) }
    ensures err { OnErr result (ready.new ≡ ready.old) }
{
    ready.set(x_inside(cell), height_of(cell), z_inside(cell), state)
}
