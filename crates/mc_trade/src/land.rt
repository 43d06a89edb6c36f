//! The cells of two columns up to a height, as rows set them, and whether a client sees them so.

use crate::tally::{Tally, count};
use mc_bytes::NoMemory;
use mc_column::Column as SeenColumn;
use mc_fields::Cell;
use mc_packets::Down;
use mc_replica::Replica;
use std::alloc::Global;

/// The columns' places along x; along z they have the first.
const COLUMNS: [i32; 2] = [0, 1];

/// The states of flat land, layer by layer, up to a height of eight.
const FLAT: [u16; 8] = [112, 48, 48, 32, 0, 0, 0, 0];

/// A column, and its states.
#[derive(Drop)]
struct Column {
    cx: i32,
    states: Vec<u16>,
}

/// The columns.
#[derive(Drop)]
pub struct Land {
    columns: Vec<Column>,
}

/// The states of flat land.
fn flat_states(alloc: Global) -> Result<Vec<u16>, NoMemory> {
    let mut states = Vec::new(alloc);
    for state in FLAT {
        for _ in 0..256 {
            states.push(state)?;
        }
    }
    Ok(states)
}

/// Counts a packet, where it is about cells.
pub fn count_cells(packet: &Down, tally: &mut Tally) {
    match packet {
        Down::MultiChange(_, _, _) => count(&mut tally.several),
        Down::Change(_, _) => count(&mut tally.changes),
        _ => {}
    }
}

impl Land {
    /// Flat land.
    pub fn new(alloc: Global) -> Result<Land, NoMemory> {
        let mut columns = Vec::new(alloc);
        for cx in COLUMNS {
            columns.push(Column {
                cx,
                states: flat_states(alloc)?,
            })?;
        }
        Ok(Land { columns })
    }

    /// A cell has another state, where it is one of these.
    pub fn set(&mut self, cell: Cell, state: u16) {
        let place = (cell.x & 15) + 16 * (cell.z & 15);
        if cell.z >> 4 == 0 {
            self.set_in(cell.x >> 4, place, cell.y, state);
        }
    }

    /// A cell of a column has another state; its place in a layer is 16 times its z, and its x.
    fn set_in(&mut self, cx: i32, place: i32, y: i32, state: u16) {
        let index = i64::from(y) * 256 + i64::from(place);
        for column in self.columns.iter_mut() {
            if column.cx == cx {
                column.put(index, state);
            }
        }
    }

    /// Whether just these columns are in view of a client, by their bits, and have these states.
    pub fn is_shown(&self, views: u8, world: &Replica) -> bool {
        let mut bits = views;
        for column in self.columns.iter() {
            if !column.is_shown(bits % 2 == 1, world) {
                return false;
            }
            bits /= 2;
        }
        true
    }

    /// How many cells have a state.
    pub fn count(&self, state: u16) -> u32 {
        let mut number = 0;
        for column in self.columns.iter() {
            column.count(state, &mut number);
        }
        number
    }
}

impl Column {
    /// A cell has another state, whose place is an index.
    fn put(&mut self, index: i64, state: u16) {
        if let Ok(index) = usize::try_from(index)
            && let Some(old) = self.states.get_mut(index)
        {
            *old = state;
        }
    }

    /// Whether a client sees it, or not, with these states.
    fn is_shown(&self, is_viewed: bool, world: &Replica) -> bool {
        match world.column(self.cx, 0) {
            Some(seen) => is_viewed && self.has_states_of(seen),
            None => !is_viewed,
        }
    }

    /// Whether its states are those of a column that is seen.
    fn has_states_of(&self, seen: &SeenColumn) -> bool {
        for (index, state) in self.states.iter().enumerate() {
            if state_at(seen, index) != *state {
                return false;
            }
        }
        true
    }

    /// Counts the cells that have a state.
    fn count(&self, state: u16, number: &mut u32) {
        for other in self.states.iter() {
            if *other == state {
                count(number);
            }
        }
    }
}

/// The state of the cell of an index.
fn state_at(seen: &SeenColumn, index: usize) -> u16 {
    let (x, z) = ((index % 16) as u8, (index / 16 % 16) as u8);
    seen.get(x, (index / 256 % 256) as u8, z)
}
