ghost use Rattle.std.specs.Prelude.{◌≡◌, ◌≤◌, ◌+◌, ◌*◌, ◌++◌, ◌∷◌, [], IfOk, OnOk, length};
ghost use Rattle.std.specs.List.{AllByRecursion};
ghost use Rattle.mc_column.specs.Sizes.{cells};
ghost use Rattle.mc_frame.specs.Kept.{joined};
ghost use Rattle.mc_land.specs.Places.{IsPlace};
ghost use Rattle.mc_sending.specs.Sending.{play_bytes};
ghost use Rattle.mc_view.specs.Sets.{is_within};
ghost use Rattle.mc_loads.specs.Columns.{IsReady, changed_packets, entered_of, left_of};
ghost use Rattle.mc_loads.specs.Columns.{load_packets, packets_between, stayed_of, staying, stays};
ghost use Rattle.mc_loads.specs.Columns.{unload_packets};
ghost use Rattle.mc_loads.specs.ColumnFrames.{AreColumnFrames, change_bytes, change_cost};
ghost use Rattle.mc_loads.specs.ColumnFrames.{changes_cost, load_bytes, load_cost, looks};
ghost use Rattle.mc_loads.specs.ColumnFrames.{unencoded};

use crate::EncodedColumns;
use crate::cells::changes_piece;
use crate::columns::load_piece;
use crate::pieces::{push_piece, push_unloads};
use bytes::Bytes;
use mc_bytes::NoMemory;
use mc_land::{Land, Steps};
use mc_view::{Columns, ViewSet};
use std::alloc::Global;
use std::sync::ledger::Ledger;

/// What one client is shown of the columns, and of which view it was shown them.
#[derive(Drop)]
pub struct ColumnsView<'w> {
    /// The cells.
    pub land: &'w Land,
    /// What was encoded of the columns for all clients.
    pub encoded: &'w EncodedColumns,
    /// The view whose columns were shown, None before the first tick.
    pub was: Option<ViewSet>,
    /// The columns that the client is shown.
    pub view: ViewSet,
}

impl ColumnsView<'_> {
    /// The columns of the view that were not shown.
    fn entered(&self) -> Columns
        ensures { result ≡ entered_of self.now.was self.now.view }
    {
        match &self.was {
            Some(old) => self.view.entered(old),
            None => self.view.all(),
        }
    }

    /// Whether a column was shown.
    fn has(&self, place: &(i32, i32)) -> bool
        ensures { result ≡ is_within self.now.was place.now }
    {
        match &self.was {
            Some(view) => view.has(place.0, place.1),
            None => false,
        }
    }

    /// Whether a column is in view and was shown.
    fn stays(&self, place: &(i32, i32)) -> bool
        ensures { result ≡ stays self.now.was self.now.view place.now }
    {
        self.view.has(place.0, place.1) && self.has(place)
    }

    /// The frame that loads the column of a place. It looks at the cells where that was not
    /// encoded.
    fn load<L: Ledger>(
        &self,
        alloc: Global,
        place: &(i32, i32),
        steps: &mut Steps<L>,
    ) -> Result<Bytes, NoMemory>
        requires ready { IsReady self.now.land.now place.now }
        requires frames { AreColumnFrames self.now.land.now self.now.encoded.now }
        ensures is { IfOk result (λ piece. piece ≡ load_bytes self.now.land.now place.now) }
        ensures cost { OnOk result (steps.new
            ≡ steps.old + load_cost self.now.encoded.now place.now) }
        ensures bounded { steps.new ≤ steps.old + load_cost self.now.encoded.now place.now }
    {
        match self.encoded.load(place) {
            Some(piece) => Ok(piece.clone()?),
            None => load_piece(alloc, self.land, place, steps),
        }
    }

    /// Appends the frames that load columns.
    fn push_loads<L: Ledger>(
        &self,
        alloc: Global,
        columns: Columns,
        out: &mut Vec<Bytes>,
        steps: &mut Steps<L>,
    ) -> Result<(), NoMemory>
        requires ready { AllByRecursion (IsReady self.now.land.now) columns }
        requires frames { AreColumnFrames self.now.land.now self.now.encoded.now }
        ensures sent { OnOk result (joined out.new.items
            ≡ joined out.old.items ++ play_bytes (load_packets self.now.land.now columns)) }
        ensures cost { OnOk result (steps.new
            ≡ steps.old + cells * length (unencoded self.now.encoded.now columns)) }
        ensures bounded { steps.new
            ≤ steps.old + cells * length (unencoded self.now.encoded.now columns) }
    {
        for place in columns {
            let piece = self.load(alloc, &place, steps)?;
            out.push(piece)?;
        }
        Ok(())
    }

    /// Appends the frames that take away the columns that are out of view.
    fn push_left(&self, alloc: Global, out: &mut Vec<Bytes>) -> Result<(), NoMemory>
        ensures { OnOk result (joined out.new.items ≡ joined out.old.items
            ++ play_bytes (unload_packets (left_of self.now.was self.now.view))) }
    {
        match &self.was {
            Some(old) => push_unloads(alloc, self.view.left(old), out),
            None => Ok(()),
        }
    }

    /// The frames of the cells of a column that changed since the last settling. It looks at those
    /// where they were not encoded.
    fn changes<L: Ledger>(
        &self,
        alloc: Global,
        place: &(i32, i32),
        steps: &mut Steps<L>,
    ) -> Result<Bytes, NoMemory>
        requires place { IsPlace place.now }
        requires frames { AreColumnFrames self.now.land.now self.now.encoded.now }
        ensures is { IfOk result (λ piece. piece ≡ change_bytes self.now.land.now place.now) }
        ensures cost { OnOk result (steps.new ≡ steps.old
            + change_cost self.now.encoded.now self.now.land.now place.now) }
        ensures bounded { steps.new ≤ steps.old
            + change_cost self.now.encoded.now self.now.land.now place.now }
    {
        match self.encoded.changes(place) {
            Some(piece) => Ok(piece.clone()?),
            None => changes_piece(alloc, self.land, place, steps),
        }
    }

    /// Appends the frames of the changed cells of a column, if it is in view and was shown.
    fn push_stayed<L: Ledger>(
        &self,
        alloc: Global,
        place: &(i32, i32),
        out: &mut Vec<Bytes>,
        steps: &mut Steps<L>,
    ) -> Result<(), NoMemory>
        requires place { IsPlace place.now }
        requires frames { AreColumnFrames self.now.land.now self.now.encoded.now }
        ensures sent { OnOk result (joined out.new.items ≡ joined out.old.items ++ play_bytes
            (changed_packets self.now.land.now
            (staying self.now.was self.now.view (place.now ∷ [])))) }
        ensures cost { OnOk result (steps.new ≡ steps.old + changes_cost self.now.encoded.now
            self.now.land.now (staying self.now.was self.now.view (place.now ∷ []))) }
        ensures bounded { steps.new ≤ steps.old + changes_cost self.now.encoded.now
            self.now.land.now (staying self.now.was self.now.view (place.now ∷ [])) }
    {
        if !self.stays(place) {
            return Ok(());
        }
        push_piece(self.changes(alloc, place, steps)?, out)
    }

    /// Appends the frames of the changed cells of the columns that stay in view. It goes through
    /// those columns alone of which a cell changed.
    fn push_changed<L: Ledger>(
        &self,
        alloc: Global,
        out: &mut Vec<Bytes>,
        steps: &mut Steps<L>,
    ) -> Result<(), NoMemory>
        requires { AreColumnFrames self.now.land.now self.now.encoded.now }
        ensures sent { OnOk result (joined out.new.items ≡ joined out.old.items ++ play_bytes
            (changed_packets self.now.land.now (stayed_of self.now.was self.now.view))) }
        ensures cost { OnOk result (steps.new ≡ steps.old + changes_cost self.now.encoded.now
            self.now.land.now (stayed_of self.now.was self.now.view)) }
        ensures bounded { steps.new ≤ steps.old + changes_cost self.now.encoded.now
            self.now.land.now (stayed_of self.now.was self.now.view) }
    {
        for place in self.land.touched() {
            self.push_stayed(alloc, place, out, steps)?;
        }
        Ok(())
    }

    /// Appends what differs of columns: those that are out of view, those that come, and the cells
    /// that changed of those that stay.
    pub fn push_columns<L: Ledger>(
        &self,
        alloc: Global,
        out: &mut Vec<Bytes>,
        steps: &mut Steps<L>,
    ) -> Result<(), NoMemory>
        requires ready { AllByRecursion (IsReady self.now.land.now)
            (entered_of self.now.was self.now.view) }
        requires frames { AreColumnFrames self.now.land.now self.now.encoded.now }
        ensures sent { OnOk result (joined out.new.items ≡ joined out.old.items ++ play_bytes
            (packets_between self.now.land.now self.now.was self.now.view)) }
        ensures cost { OnOk result (steps.new ≡ steps.old
            + looks self.now.encoded.now self.now.land.now self.now.was self.now.view) }
        ensures bounded { steps.new ≤ steps.old
            + looks self.now.encoded.now self.now.land.now self.now.was self.now.view }
    {
        self.push_left(alloc, out)?;
        self.push_loads(alloc, self.entered(), out, steps)?;
        self.push_changed(alloc, out, steps)
    }
}
