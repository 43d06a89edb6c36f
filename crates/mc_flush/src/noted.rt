//! Answers to the clicks of a client, and cells that were noted for it, as they are.

ghost use Rattle.std.specs.Prelude.{◌≡◌, ◌≤◌, ◌+◌, ◌++◌, ◌∷◌, [], IfOk, OnOk, map, true};
ghost use Rattle.mc_fields.specs.Position.{FitsCell};
ghost use Rattle.mc_view.specs.Sets.{has};
ghost use Rattle.mc_model.specs.Notes.{confirm_packet, is_sent, noted_packets};
ghost use Rattle.mc_model.specs.Things.{state_of_cell};
ghost use Rattle.mc_flush.specs.Encoding.{looks_at, noted_cost};
ghost use Rattle.mc_sending.specs.Sending.{play_bytes};

use crate::notes::put_confirms;
use bytes::Bytes;
use mc_bytes::NoMemory;
use mc_fields::Cell;
use mc_land::{Land, Steps};
use mc_model::Notes;
use mc_packets::Down;
use mc_sending::put_made;
use mc_view::ViewSet;
use std::alloc::Global;
use std::sync::ledger::Ledger;

/// Whether a cell has a position and lies in a column of a view.
fn is_sent(view: &ViewSet, cell: &Cell) -> bool
    ensures is { result ≡ is_sent (has view.now) cell.now }
    ensures fits { result ≡ true → FitsCell cell.now }
{
    if cell.y < -2_048 {
        return false;
    }
    if 2_047 < cell.y {
        return false;
    }
    view.has(cell.x.div_euclid(16), cell.z.div_euclid(16))
}

/// The state of a cell: air above and below the world, where nothing is looked at.
fn state_of<L: Ledger>(land: &Land, cell: &Cell, steps: &mut Steps<L>) -> u16
    ensures is { result
        ≡ state_of_cell land.now.terrain land.now.edits cell.now.x cell.now.y cell.now.z }
    ensures cost { steps.new ≡ steps.old + looks_at cell.now }
{
    if cell.y < 0 || 255 < cell.y {
        return 0;
    }
    land.block(*cell, steps)
}

/// Appends the frame of a noted cell, if it is sent.
fn put_noted<L: Ledger>(
    land: &Land,
    view: &ViewSet,
    cell: &Cell,
    out: &mut Vec<u8>,
    steps: &mut Steps<L>,
) -> Result<(), NoMemory>
    ensures sent { OnOk result (out.new.items ≡ out.old.items ++ play_bytes
        (noted_packets land.now.terrain land.now.edits (has view.now) (cell.now ∷ []))) }
    ensures cost { OnOk result (steps.new
        ≡ steps.old + noted_cost view.now (cell.now ∷ [])) }
    ensures bounded { steps.new ≤ steps.old + noted_cost view.now (cell.now ∷ []) }
{
    if !is_sent(view, cell) {
        return Ok(());
    }
    let state = state_of(land, cell, steps);
    put_made(Down::Change(*cell, i32::from(state)), out)
}

/// Appends the frames of the noted cells that are sent. It looks at those that have a state of
/// their own.
fn put_cells<L: Ledger>(
    land: &Land,
    view: &ViewSet,
    cells: &[Cell],
    out: &mut Vec<u8>,
    steps: &mut Steps<L>,
) -> Result<(), NoMemory>
    ensures sent { OnOk result (out.new.items ≡ out.old.items ++ play_bytes
        (noted_packets land.now.terrain land.now.edits (has view.now) cells.now)) }
    ensures cost { OnOk result (steps.new ≡ steps.old + noted_cost view.now cells.now) }
    ensures bounded { steps.new ≤ steps.old + noted_cost view.now cells.now }
{
    for cell in cells {
        put_noted(land, view, cell, out, steps)?;
    }
    Ok(())
}

/// The frames of the answers to clicks and of the noted cells that are sent, as one piece. It looks
/// at those cells that have a state of their own.
pub fn noted_piece<L: Ledger>(
    alloc: Global,
    land: &Land,
    view: &ViewSet,
    notes: &Notes,
    steps: &mut Steps<L>,
) -> Result<Bytes, NoMemory>
    ensures is { IfOk result (λ piece. piece ≡ play_bytes (map confirm_packet notes.now.confirms
        ++ noted_packets land.now.terrain land.now.edits (has view.now) notes.now.cells)) }
    ensures cost { OnOk result (steps.new ≡ steps.old + noted_cost view.now notes.now.cells) }
    ensures bounded { steps.new ≤ steps.old + noted_cost view.now notes.now.cells }
{
    let mut bytes = Vec::new(alloc);
    put_confirms(notes.confirms.as_slice(), &mut bytes)?;
    put_cells(land, view, notes.cells.as_slice(), &mut bytes, steps)?;
    Ok(Bytes::from_vec(bytes)?)
}
