ghost use Rattle.std.specs.Prelude.{◌≡◌, ◌≢◌, ◌++◌, ℕ, List, IfOk, IfErr, OnOk, OnErr, Ok, take};
ghost use Rattle.std.specs.Prelude.{length};
ghost use Rattle.mc_bytes.specs.Reading.{Yields};
ghost use Rattle.mc_fields.specs.Row.{GivesPacket, id_read, packet_read, packet_of};
ghost use Rattle.mc_hello.specs.StatusUp.{rows, SpellsStatusUp, FitsStatusUp, spelling_of};
ghost use Rattle.mc_hello.specs.StatusUp.{append_of};

use mc_bytes::{Cursor, NoMemory};
use mc_fields::{PacketRead, RowFault, put_row, take_i64, take_varint, whole, write_varint};

/// A packet of a client that asks for the status.
#[derive(Clone, Copy, Debug, PartialEq, Eq)]
pub enum StatusUp {
    /// The client asks for the status.
    Request,
    /// The client asks for this number again.
    Ping(i64),
}

/// The fields of the packet with this id.
fn read_fields(cursor: &mut Cursor<'_>, id: i32) -> Result<StatusUp, RowFault>
    ensures { Yields (λ packet. (packet, cursor.new)) result (id_read rows id cursor.old) }
{
    match id {
        0 => Ok(StatusUp::Request),
        1 => Ok(StatusUp::Ping(take_i64(cursor)?)),
        _ => Err(RowFault::UnknownId(id)),
    }
}

/// The packet of a frame, or its first fault, with its place counted from the frame's end.
#[tactic(auto, unfolding(mc_fields::specs::Row::packet_read))]
fn packet_in(frame: &[u8]) -> Result<StatusUp, RowFault>
    ensures { Yields (λ packet. packet) result (packet_read rows frame.now) }
{
    let mut cursor = Cursor::new(frame);
    let id = take_varint(&mut cursor)?;
    let packet = read_fields(&mut cursor, id)?;
    whole(packet, &cursor)
}

/// Reads a packet, whose frame is the bytes after the frame's length. It takes no memory.
pub fn read_status_up(frame: &[u8]) -> Result<StatusUp, PacketRead>
    // What is read is spelled so.
    ensures found { IfOk result (λ packet. SpellsStatusUp packet frame.now) }
    // What is spelled so is read.
    ensures only { (packet : StatusUp) → SpellsStatusUp packet frame.now →
        GivesPacket result (Ok packet) }
    // A frame spells one packet at most.
    ensures one { (p q : StatusUp) → SpellsStatusUp p frame.now →
        SpellsStatusUp q frame.now → p ≡ q }
    // Which fault it is.
    ensures exact { GivesPacket result (packet_of frame.now (packet_read rows frame.now)) }
    // It never finds too little memory.
    ensures memory { IfErr result (λ error. error ≢ PacketRead.NoMemory) }
{
    packet_in(frame).map_err(|fault| PacketRead::Fault(fault.within(frame.len())))
}

/// The id and the fields of a packet; without memory some first part of them.
fn write_fields(packet: &StatusUp, out: &mut Vec<u8>) -> Result<(), NoMemory>
    requires { FitsStatusUp packet.now }
    ensures ok { OnOk result (out.new.items ≡ append_of packet.now out.old.items) }
    ensures begun { OnErr result (take (length out.old.items) out.new.items ≡ out.old.items) }
{
    match packet {
        StatusUp::Request => write_varint(0, out),
        StatusUp::Ping(number) => put_row(1, number, out),
    }
}

/// Appends a packet, with its VarInts the shortest. Without memory `out` is as before.
pub fn write_status_up(packet: &StatusUp, out: &mut Vec<u8>) -> Result<(), NoMemory>
    // It has a spelling.
    requires { (bytes : List ℕ) × SpellsStatusUp packet.now bytes }
    ensures ok { OnOk result (out.new.items ≡ out.old.items ++ spelling_of packet.now) }
    ensures spelled { SpellsStatusUp packet.now (spelling_of packet.now) }
    // What is written is read as the same packet.
    ensures again { packet_read rows (spelling_of packet.now) ≡ Ok packet.now }
    ensures err { OnErr result (out.new.items ≡ out.old.items) }
{
    let start = out.len();
    let written = write_fields(packet, out);
    if written.is_err() {
        out.truncate(start);
    }
    written
}
