ghost use Rattle.std.specs.Prelude.{◌≡◌, ◌++◌, ℕ, List, IfOk, OnOk, OnErr, Ok, take, length};
ghost use Rattle.mc_fields.specs.Row.{GivesRow, GivesPacket, id_read, packet_read, packet_of};
ghost use Rattle.mc_hello.specs.LoginUp.{rows, SpellsLoginUp, FitsLoginUp, spelling_of, append_of};

use mc_bytes::{Cursor, NoMemory, Text};
use mc_fields::{Bounded, Field, PacketRead, RowError, RowFault, put_row, take_varint, whole};
use std::alloc::Global;

/// A packet of a client that logs in.
#[derive(Drop)]
pub enum LoginUp {
    /// The client wants to play under this name.
    Start(Text),
}

/// The fields of the packet with this id.
fn read_fields(alloc: Global, cursor: &mut Cursor<'_>, id: i32) -> Result<LoginUp, RowError>
    ensures { GivesRow (λ packet. (packet, cursor.new)) result (id_read rows id cursor.old) }
{
    match id {
        0 => {
            let name: Bounded<16> = Field::get(alloc, cursor)?;
            Ok(LoginUp::Start(name.into_text()))
        }
        _ => Err(RowError::Fault(RowFault::UnknownId(id))),
    }
}

/// The packet of a frame, or its first fault, with its place counted from the frame's end.
#[tactic(auto, unfolding(mc_fields::specs::Row::packet_read))]
fn packet_in(alloc: Global, frame: &[u8]) -> Result<LoginUp, RowError>
    ensures { GivesRow (λ packet. packet) result (packet_read rows frame.now) }
{
    let mut cursor = Cursor::new(frame);
    let id = take_varint(&mut cursor)?;
    let packet = read_fields(alloc, &mut cursor, id)?;
    Ok(whole(packet, &cursor)?)
}

/// Reads a packet, whose frame is the bytes after the frame's length.
pub fn read_login_up(alloc: Global, frame: &[u8]) -> Result<LoginUp, PacketRead>
    // What is read is spelled so.
    ensures found { IfOk result (λ packet. SpellsLoginUp packet frame.now) }
    // What is spelled so is read, unless memory runs out.
    ensures only { (packet : LoginUp) → SpellsLoginUp packet frame.now →
        GivesPacket result (Ok packet) }
    // A frame spells one packet at most.
    ensures one { (p q : LoginUp) → SpellsLoginUp p frame.now → SpellsLoginUp q frame.now → p ≡ q }
    // Which fault it is.
    ensures exact { GivesPacket result (packet_of frame.now (packet_read rows frame.now)) }
{
    packet_in(alloc, frame).map_err(|error| error.within(frame.len()))
}

/// The id and the fields of a packet; without memory some first part of them.
#[tactic(auto, using(crate::proofs::Wider::wider_16))]
fn write_fields(packet: &LoginUp, out: &mut Vec<u8>) -> Result<(), NoMemory>
    requires { FitsLoginUp packet.now }
    ensures ok { OnOk result (out.new.items ≡ append_of packet.now out.old.items) }
    ensures begun { OnErr result (take (length out.old.items) out.new.items ≡ out.old.items) }
{
    match packet {
        LoginUp::Start(name) => put_row(0, name, out),
    }
}

/// Appends a packet, with its VarInts the shortest. Without memory `out` is as before.
pub fn write_login_up(packet: &LoginUp, out: &mut Vec<u8>) -> Result<(), NoMemory>
    // It has a spelling.
    requires { (bytes : List ℕ) × SpellsLoginUp packet.now bytes }
    ensures ok { OnOk result (out.new.items ≡ out.old.items ++ spelling_of packet.now) }
    ensures spelled { SpellsLoginUp packet.now (spelling_of packet.now) }
    // What is written is read as the same packet.
    ensures again { packet_read rows (spelling_of packet.now) ≡ Ok packet.now }
    ensures err { OnErr result (out.new.items ≡ out.old.items) }
{
    let start = out.len();
    let written = write_fields(packet, out);
    if written.is_err() {
        out.truncate(start);
    }
    written
}
