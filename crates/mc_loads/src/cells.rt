//! The cells of a column that changed since the last settling, as packets.

ghost use Rattle.std.specs.Prelude.{◌≡◌, ◌≤◌, ◌+◌, ◌++◌, ◌∷◌, [], IfOk, OnOk, length, map};
ghost use Rattle.std.specs.Prelude.{slice_index, pos, ◌<◌, ◌+ℤ◌, ◌*ℤ◌, ◌≤ℤ◌};
ghost use lib.IntN.{neg_ℤ};
ghost use Rattle.mc_land.specs.Places.{IsPlace};
ghost use Rattle.mc_land.specs.declared.places.TheConstants.{COLUMN_BORDER};
ghost use Rattle.mc_land.specs.Land.{dirty_in};
ghost use Rattle.mc_model.specs.Delta.{cell_at, cell_packets, cell_record};
ghost use Rattle.mc_sending.specs.Sending.{play_bytes};
ghost use Rattle.mc_loads.specs.ColumnFrames.{change_bytes};
ghost use Rattle.mc_loads.specs.Cells.{AreCells, IsCell, indices, states_at};

use bytes::Bytes;
use mc_bytes::NoMemory;
use mc_fields::Cell;
use mc_land::{Land, Steps, Touched};
use mc_packets::{Down, Record, Records};
use mc_sending::put_made;
use std::alloc::Global;
use std::sync::ledger::Ledger;

/// The number of a cell along an axis, by that of its column and its place in that.
fn along(column: i32, inside: u16) -> i32
    requires low { neg_ℤ (pos COLUMN_BORDER) ≤ℤ column }
    requires high { column ≤ℤ pos COLUMN_BORDER }
    requires small { inside < 16 }
    ensures { result ≡ column *ℤ pos 16 +ℤ pos inside }
{
    column * 16 + i32::from(inside)
}

/// The cell of an index in the column of a place.
fn cell_at(place: &(i32, i32), index: u16) -> Cell
    requires { IsPlace place.now }
    ensures { result ≡ cell_at place.now index }
{
    Cell {
        x: along(place.0, index % 16),
        y: i32::from(index / 256),
        z: along(place.1, index / 16 % 16),
    }
}

/// The state of a cell of the column of a place.
fn state_at<L: Ledger>(land: &Land, place: &(i32, i32), index: u16, steps: &mut Steps<L>) -> u16
    requires { IsPlace place.now }
    ensures state { result ≡ slice_index (states_at land.now place.now) index }
    ensures cell { IsCell (states_at land.now place.now) index }
    ensures cost { steps.new ≡ steps.old + 1 }
{
    land.block(cell_at(place, index), steps)
}

/// One cell of the column of a place with its state.
fn record_of<L: Ledger>(land: &Land, place: &(i32, i32), index: u16, steps: &mut Steps<L>) -> Record
    requires { IsPlace place.now }
    ensures record { result ≡ cell_record (states_at land.now place.now) index }
    ensures cell { IsCell (states_at land.now place.now) index }
    ensures cost { steps.new ≡ steps.old + 1 }
{
    let state = state_at(land, place, index, steps);
    Record {
        place: (16 * (index % 16) + index / 16 % 16) as u8,
        y: (index / 256) as u8,
        state: i32::from(state),
    }
}

/// Cells of the column of a place with their states, in their order.
fn records_of<L: Ledger>(
    alloc: Global,
    land: &Land,
    place: &(i32, i32),
    touched: &[Touched],
    steps: &mut Steps<L>,
) -> Result<Records, NoMemory>
    requires { IsPlace place.now }
    ensures records { IfOk result (λ records. records
        ≡ map (cell_record (states_at land.now place.now)) (indices touched.now)) }
    ensures cells { OnOk result (AreCells (states_at land.now place.now) (indices touched.now)) }
    ensures cost { OnOk result (steps.new ≡ steps.old + length touched.now) }
    ensures bounded { steps.new ≤ steps.old + length touched.now }
{
    let mut records = Records::new(alloc);
    for cell in touched {
        records.push(record_of(land, place, cell.index, steps))?;
    }
    Ok(records)
}

/// Appends the frame of one cell of the column of a place.
fn put_change<L: Ledger>(
    land: &Land,
    place: &(i32, i32),
    index: u16,
    out: &mut Vec<u8>,
    steps: &mut Steps<L>,
) -> Result<(), NoMemory>
    requires { IsPlace place.now }
    ensures sent { OnOk result (out.new.items ≡ out.old.items ++ play_bytes
        (cell_packets place.now (states_at land.now place.now) (index ∷ []))) }
    ensures cost { steps.new ≡ steps.old + 1 }
{
    let state = state_at(land, place, index, steps);
    put_made(Down::Change(cell_at(place, index), i32::from(state)), out)
}

/// Appends the frame of several cells of the column of a place.
fn put_changes<L: Ledger>(
    land: &Land,
    place: &(i32, i32),
    touched: &[Touched],
    out: &mut Vec<u8>,
    steps: &mut Steps<L>,
) -> Result<(), NoMemory>
    requires place { IsPlace place.now }
    requires several { 2 ≤ length touched.now }
    requires few { length touched.now ≤ 65536 }
    ensures sent { OnOk result (out.new.items ≡ out.old.items ++ play_bytes
        (cell_packets place.now (states_at land.now place.now) (indices touched.now))) }
    ensures cost { OnOk result (steps.new ≡ steps.old + length touched.now) }
    ensures bounded { steps.new ≤ steps.old + length touched.now }
{
    let records = records_of(*out.allocator(), land, place, touched, steps)?;
    put_made(Down::MultiChange(place.0, place.1, records), out)
}

/// The cells of the column of a place that changed since the last settling.
pub fn dirty_cells<'a>(land: &'a Land, place: &(i32, i32)) -> &'a [Touched]
    requires { IsPlace place.now }
    ensures are { result.now ≡ dirty_in land.now place.now }
    ensures few { length result.now ≤ 65536 }
{
    land.dirty(place.0, place.1)
}

/// Appends the frames of the cells of the column of a place that changed since the last settling.
fn put_touched<L: Ledger>(
    land: &Land,
    place: &(i32, i32),
    out: &mut Vec<u8>,
    steps: &mut Steps<L>,
) -> Result<(), NoMemory>
    requires { IsPlace place.now }
    ensures sent { OnOk result (out.new.items ≡ out.old.items ++ change_bytes land.now place.now) }
    ensures cost { OnOk result (steps.new ≡ steps.old + length (dirty_in land.now place.now)) }
    ensures bounded { steps.new ≤ steps.old + length (dirty_in land.now place.now) }
{
    let touched = dirty_cells(land, place);
    if touched.is_empty() {
        return Ok(());
    }
    if touched.len() == 1 {
        return put_change(land, place, touched[0].index, out, steps);
    }
    put_changes(land, place, touched, out, steps)
}

/// The frames of the cells of the column of a place that changed since the last settling, as one
/// piece: none, a change of one, or a change of several in rising index. It looks at those cells
/// and at no other.
pub fn changes_piece<L: Ledger>(
    alloc: Global,
    land: &Land,
    place: &(i32, i32),
    steps: &mut Steps<L>,
) -> Result<Bytes, NoMemory>
    requires { IsPlace place.now }
    ensures is { IfOk result (λ piece. piece ≡ change_bytes land.now place.now) }
    ensures cost { OnOk result (steps.new ≡ steps.old + length (dirty_in land.now place.now)) }
    ensures bounded { steps.new ≤ steps.old + length (dirty_in land.now place.now) }
{
    let mut bytes = Vec::new(alloc);
    put_touched(land, place, &mut bytes, steps)?;
    Ok(Bytes::from_vec(bytes)?)
}
