ghost use Rattle.std.specs.Prelude.{◌≡◌, ◌+◌, ◌≤◌, OnErr, OnOk};
ghost use Rattle.std.specs.Option.{option_copied};
ghost use Rattle.std.specs.FinMap as map;
ghost use Rattle.mc_land.specs.Places.{IsPlace};
ghost use Rattle.mc_land.specs.Land.{LandValue};
ghost use Rattle.mc_loads.specs.Columns.{IsReady};
ghost use Rattle.mc_loads.specs.ColumnFrames.{AreColumnFrames, change_cost, load_cost, no_columns};
ghost use Rattle.mc_loads.specs.ColumnFrames.{with_changes, with_load};

mod fields;

use crate::cells::{changes_piece, dirty_cells};
use crate::columns::load_piece;
use bytes::Bytes;
use mc_bytes::NoMemory;
use mc_land::{Land, Steps};
use std::alloc::Global;
use std::collections::BTreeMap;
use std::marker::Model;
use std::sync::ledger::Ledger;

/// The loads and the changed cells of columns, each encoded once for all clients of a tick: by
/// place the frame of a column's load, and by place those of its cells that changed since the last
/// settling.
#[derive(Drop)]
pub struct EncodedColumns {
    /// By place, the frame that loads its column.
    loads: BTreeMap<(i32, i32), Bytes>,
    /// By place, the frames of the changed cells of its column.
    changes: BTreeMap<(i32, i32), Bytes>,
}

impl Model for EncodedColumns {
    ghost use Rattle.std.specs.FinMap.{from_entries};
    ghost use Rattle.mc_loads.specs.ColumnFrames.{ColumnsValue, coded_columns};

    ghost Value = { ColumnsValue };

    ghost coded = { coded_columns };

    ghost view = { λ e. record {
      loads = from_entries e.loads.entries;
      changes = from_entries e.changes.entries;
    } };
}

impl EncodedColumns {
    /// Nothing was encoded.
    pub fn new(alloc: Global) -> EncodedColumns
        ensures is { result ≡ no_columns }
        ensures frames { (land : LandValue) → AreColumnFrames land result }
    {
        EncodedColumns {
            loads: BTreeMap::new(alloc),
            changes: BTreeMap::new(alloc),
        }
    }

    /// Adds the frame that loads the column of a place, and looks at its cells, unless it is there.
    /// Without memory all is as before.
    pub fn add_load<L: Ledger>(
        &mut self,
        alloc: Global,
        land: &Land,
        place: &(i32, i32),
        steps: &mut Steps<L>,
    ) -> Result<(), NoMemory>
        requires { IsReady land.now place.now }
        ensures ok { OnOk result (self.new ≡ with_load self.old land.now place.now) }
        ensures err { OnErr result (self.new ≡ self.old) }
        ensures frames { AreColumnFrames land.now self.old → AreColumnFrames land.now self.new }
        ensures cost { OnOk result (steps.new ≡ steps.old + load_cost self.old place.now) }
        ensures bounded { steps.new ≤ steps.old + load_cost self.old place.now }
    {
        if self.load(place).is_some() {
            return Ok(());
        }
        let piece = load_piece(alloc, land, place, steps)?;
        drop(self.loads.insert(*place, piece)?);
        Ok(())
    }

    /// Adds the frames of the cells of a column that changed since the last settling, and looks at
    /// those, unless they are there or none changed. Without memory all is as before.
    pub fn add_changes<L: Ledger>(
        &mut self,
        alloc: Global,
        land: &Land,
        place: &(i32, i32),
        steps: &mut Steps<L>,
    ) -> Result<(), NoMemory>
        requires { IsPlace place.now }
        ensures ok { OnOk result (self.new ≡ with_changes self.old land.now place.now) }
        ensures err { OnErr result (self.new ≡ self.old) }
        ensures frames { AreColumnFrames land.now self.old → AreColumnFrames land.now self.new }
        ensures cost { OnOk result (steps.new
            ≡ steps.old + change_cost self.old land.now place.now) }
        ensures bounded { steps.new ≤ steps.old + change_cost self.old land.now place.now }
    {
        if self.changes(place).is_some() {
            return Ok(());
        }
        if dirty_cells(land, place).is_empty() {
            return Ok(());
        }
        let piece = changes_piece(alloc, land, place, steps)?;
        drop(self.changes.insert(*place, piece)?);
        Ok(())
    }

    /// The frame that loads the column of a place, None where it was not encoded.
    pub fn load(&self, place: &(i32, i32)) -> Option<&Bytes>
        ensures { option_copied result ≡ map.get self.now.loads place.now }
    {
        self.loads.get(place)
    }

    /// The frames of the changed cells of the column of a place, None where they were not encoded.
    pub fn changes(&self, place: &(i32, i32)) -> Option<&Bytes>
        ensures { option_copied result ≡ map.get self.now.changes place.now }
    {
        self.changes.get(place)
    }
}
