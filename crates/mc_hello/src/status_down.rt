ghost use Rattle.std.specs.Prelude.{◌≡◌, ◌++◌, ℕ, List, IfOk, OnOk, OnErr, Ok, take, length};
ghost use Rattle.mc_fields.specs.Row.{GivesRow, GivesPacket, id_read, packet_read, packet_of};
ghost use Rattle.mc_hello.specs.StatusDown.{rows, SpellsStatusDown, FitsStatusDown};
ghost use Rattle.mc_hello.specs.StatusDown.{spelling_of, append_of};

use mc_bytes::{Cursor, NoMemory, Text};
use mc_fields::{Field, PacketRead, RowError, RowFault, put_row, take_varint, whole};
use std::alloc::Global;

/// A packet to a client that asks for the status.
#[derive(Drop)]
pub enum StatusDown {
    /// The status, as JSON.
    Response(Text),
    /// The number of the client's ping.
    Pong(i64),
}

/// The fields of the packet with this id.
fn read_fields(alloc: Global, cursor: &mut Cursor<'_>, id: i32) -> Result<StatusDown, RowError>
    ensures { GivesRow (λ packet. (packet, cursor.new)) result (id_read rows id cursor.old) }
{
    match id {
        0 => Ok(StatusDown::Response(Field::get(alloc, cursor)?)),
        1 => Ok(StatusDown::Pong(Field::get(alloc, cursor)?)),
        _ => Err(RowError::Fault(RowFault::UnknownId(id))),
    }
}

/// The packet of a frame, or its first fault, with its place counted from the frame's end.
#[tactic(auto, unfolding(mc_fields::specs::Row::packet_read))]
fn packet_in(alloc: Global, frame: &[u8]) -> Result<StatusDown, RowError>
    ensures { GivesRow (λ packet. packet) result (packet_read rows frame.now) }
{
    let mut cursor = Cursor::new(frame);
    let id = take_varint(&mut cursor)?;
    let packet = read_fields(alloc, &mut cursor, id)?;
    Ok(whole(packet, &cursor)?)
}

/// Reads a packet, whose frame is the bytes after the frame's length.
pub fn read_status_down(alloc: Global, frame: &[u8]) -> Result<StatusDown, PacketRead>
    // What is read is spelled so.
    ensures found { IfOk result (λ packet. SpellsStatusDown packet frame.now) }
    // What is spelled so is read, unless memory runs out.
    ensures only { (packet : StatusDown) → SpellsStatusDown packet frame.now →
        GivesPacket result (Ok packet) }
    // A frame spells one packet at most.
    ensures one { (p q : StatusDown) → SpellsStatusDown p frame.now →
        SpellsStatusDown q frame.now → p ≡ q }
    // Which fault it is.
    ensures exact { GivesPacket result (packet_of frame.now (packet_read rows frame.now)) }
{
    packet_in(alloc, frame).map_err(|error| error.within(frame.len()))
}

/// The id and the fields of a packet; without memory some first part of them.
fn write_fields(packet: &StatusDown, out: &mut Vec<u8>) -> Result<(), NoMemory>
    requires { FitsStatusDown packet.now }
    ensures ok { OnOk result (out.new.items ≡ append_of packet.now out.old.items) }
    ensures begun { OnErr result (take (length out.old.items) out.new.items ≡ out.old.items) }
{
    match packet {
        StatusDown::Response(json) => put_row(0, json, out),
        StatusDown::Pong(number) => put_row(1, number, out),
    }
}

/// Appends a packet, with its VarInts the shortest. Without memory `out` is as before.
pub fn write_status_down(packet: &StatusDown, out: &mut Vec<u8>) -> Result<(), NoMemory>
    // It has a spelling.
    requires { (bytes : List ℕ) × SpellsStatusDown packet.now bytes }
    ensures ok { OnOk result (out.new.items ≡ out.old.items ++ spelling_of packet.now) }
    ensures spelled { SpellsStatusDown packet.now (spelling_of packet.now) }
    // What is written is read as the same packet.
    ensures again { packet_read rows (spelling_of packet.now) ≡ Ok packet.now }
    ensures err { OnErr result (out.new.items ≡ out.old.items) }
{
    let start = out.len();
    let written = write_fields(packet, out);
    if written.is_err() {
        out.truncate(start);
    }
    written
}
