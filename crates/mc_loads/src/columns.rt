ghost use Rattle.std.specs.Prelude.{◌≡◌, ◌+◌, ◌^◌, ◌<◌, ◌++◌, OnOk, IfOk};
ghost use Rattle.std.specs.List.{AllByRecursion};
ghost use Rattle.mc_column.specs.Sizes.{cells};
ghost use Rattle.mc_land.specs.Places.{IsPlace};
ghost use Rattle.mc_model.specs.Packets.{of_play, frame_of};
ghost use Rattle.mc_model.specs.Delta.{load, unload};
ghost use Rattle.mc_loads.specs.Heads.{load_head};
ghost use Rattle.mc_sending.specs.Sending.{play_bytes};
ghost use Rattle.mc_loads.specs.Columns.{IsReady, unload_packets};
ghost use Rattle.mc_loads.specs.ColumnFrames.{load_bytes};

use bytes::Bytes;
use mc_bytes::{NoMemory, Octets, write_octets};
use mc_column::Column;
use mc_fields::{write_bool, write_i32, write_u16, write_varint};
use mc_land::{Land, Steps};
use mc_packets::Down;
use mc_sending::put_made;
use mc_view::Columns;
use std::alloc::Global;
use std::sync::ledger::Ledger;

/// The id and the fields before the body of a packet that loads a column.
fn load_head(alloc: Global, place: &(i32, i32), mask: u16, size: usize) -> Result<Vec<u8>, NoMemory>
    requires { size < 2 ^ 21 }
    ensures { IfOk result (λ head. head.items ≡ load_head place.now mask size) }
{
    let mut head = Vec::new(alloc);
    write_varint(0x21, &mut head)?;
    write_i32(place.0, &mut head)?;
    write_i32(place.1, &mut head)?;
    write_bool(true, &mut head)?;
    write_u16(mask, &mut head)?;
    write_varint(size as i32, &mut head)?;
    Ok(head)
}

/// Appends the frame that loads a column. Its body is encoded once, behind the frame's head.
fn put_column(place: &(i32, i32), column: &Column, out: &mut Vec<u8>) -> Result<(), NoMemory>
    requires { IsPlace place.now }
    ensures { OnOk result (out.new.items
        ≡ out.old.items ++ frame_of (of_play (load (place.now, column.now)))) }
{
    let mask = column.sent_mask();
    let size = column.sent_size(mask);
    let head = load_head(*out.allocator(), place, mask, size)?;
    write_varint((head.len() + size) as i32, out)?;
    write_octets(&head, out)?;
    column.write_body(out)?;
    Ok(())
}

/// Appends the frame that loads the column of a place, and looks at its cells.
fn put_load<L: Ledger>(
    land: &Land,
    place: &(i32, i32),
    out: &mut Vec<u8>,
    steps: &mut Steps<L>,
) -> Result<(), NoMemory>
    requires { IsReady land.now place.now }
    ensures sent { OnOk result (out.new.items
        ≡ out.old.items ++ load_bytes land.now place.now) }
    ensures cost { steps.new ≡ steps.old + cells }
{
    match land.column(place.0, place.1, steps) {
        Some(column) => put_column(place, column, out),
        None => Ok(()),
    }
}

/// The frame that loads the column of a place, as one piece. It looks at its cells, also where
/// memory runs out.
pub fn load_piece<L: Ledger>(
    alloc: Global,
    land: &Land,
    place: &(i32, i32),
    steps: &mut Steps<L>,
) -> Result<Bytes, NoMemory>
    requires { IsReady land.now place.now }
    ensures is { IfOk result (λ piece. piece ≡ load_bytes land.now place.now) }
    ensures cost { steps.new ≡ steps.old + cells }
{
    let mut bytes = Vec::new(alloc);
    put_load(land, place, &mut bytes, steps)?;
    Ok(Bytes::from_vec(bytes)?)
}

/// All of a column and no section, which takes the column away.
fn unload(alloc: Global, place: &(i32, i32)) -> Down
    ensures { result ≡ unload place.now }
{
    Down::Chunk {
        cx: place.0,
        cz: place.1,
        ground_up: true,
        mask: 0,
        body: Octets::new(alloc),
    }
}

/// Appends the frame that takes a column away.
fn put_unload(place: &(i32, i32), out: &mut Vec<u8>) -> Result<(), NoMemory>
    requires { IsPlace place.now }
    ensures { OnOk result (out.new.items
        ≡ out.old.items ++ frame_of (of_play (unload place.now))) }
{
    put_made(unload(*out.allocator(), place), out)
}

/// Appends the frames that take columns away.
pub fn put_unloads(columns: Columns, out: &mut Vec<u8>) -> Result<(), NoMemory>
    requires { AllByRecursion IsPlace columns }
    ensures { OnOk result (out.new.items
        ≡ out.old.items ++ play_bytes (unload_packets columns)) }
{
    for place in columns {
        put_unload(&place, out)?;
    }
    Ok(())
}
