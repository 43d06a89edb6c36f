//! Frames as pieces of what is sent.

ghost use Rattle.std.specs.Prelude.{◌≡◌, ◌++◌, OnOk};
ghost use Rattle.std.specs.List.{AllByRecursion};
ghost use Rattle.mc_frame.specs.Kept.{joined};
ghost use Rattle.mc_land.specs.Places.{IsPlace};
ghost use Rattle.mc_sending.specs.Sending.{play_bytes};
ghost use Rattle.mc_loads.specs.Columns.{unload_packets};

use crate::columns::put_unloads;
use bytes::Bytes;
use mc_bytes::NoMemory;
use mc_view::Columns;
use std::alloc::Global;

/// Appends a piece, unless it is empty.
pub fn push_piece(piece: Bytes, out: &mut Vec<Bytes>) -> Result<(), NoMemory>
    ensures { OnOk result (joined out.new.items ≡ joined out.old.items ++ piece) }
{
    if piece.is_empty() {
        return Ok(());
    }
    out.push(piece)?;
    Ok(())
}

/// Appends the frames that take columns away, as one piece.
pub fn push_unloads(alloc: Global, columns: Columns, out: &mut Vec<Bytes>) -> Result<(), NoMemory>
    requires { AllByRecursion IsPlace columns }
    ensures { OnOk result (joined out.new.items
        ≡ joined out.old.items ++ play_bytes (unload_packets columns)) }
{
    let mut bytes = Vec::new(alloc);
    put_unloads(columns, &mut bytes)?;
    push_piece(Bytes::from_vec(bytes)?, out)
}
