ghost use Rattle.std.specs.Prelude.{◌≡◌, ◌++◌, ℕ, List, IfOk, OnOk, OnErr, Ok, take, length};
ghost use Rattle.mc_fields.specs.Row.{GivesRow, GivesPacket, id_read, packet_read, packet_of};
ghost use Rattle.mc_hello.specs.LoginDown.{rows, SpellsLoginDown, FitsLoginDown};
ghost use Rattle.mc_hello.specs.LoginDown.{spelling_of, append_of};

use mc_bytes::{Cursor, NoMemory, Text};
use mc_fields::{
    Bounded, Field, PacketRead, RowError, RowFault, put_row, put_row2, take_varint, whole,
};
use std::alloc::Global;

/// A packet to a client that logs in.
#[derive(Drop)]
pub enum LoginDown {
    /// The client may not play, and why, as JSON.
    Disconnect(Text),
    /// The client plays from now on: its player's uuid, with hyphens, and name.
    Success(Text, Text),
}

/// The fields of the packet with this id.
fn read_fields(alloc: Global, cursor: &mut Cursor<'_>, id: i32) -> Result<LoginDown, RowError>
    ensures { GivesRow (λ packet. (packet, cursor.new)) result (id_read rows id cursor.old) }
{
    match id {
        0 => Ok(LoginDown::Disconnect(Field::get(alloc, cursor)?)),
        2 => {
            let (uuid, name): (Bounded<36>, Bounded<16>) = Field::get(alloc, cursor)?;
            Ok(LoginDown::Success(uuid.into_text(), name.into_text()))
        }
        _ => Err(RowError::Fault(RowFault::UnknownId(id))),
    }
}

/// The packet of a frame, or its first fault, with its place counted from the frame's end.
#[tactic(auto, unfolding(mc_fields::specs::Row::packet_read))]
fn packet_in(alloc: Global, frame: &[u8]) -> Result<LoginDown, RowError>
    ensures { GivesRow (λ packet. packet) result (packet_read rows frame.now) }
{
    let mut cursor = Cursor::new(frame);
    let id = take_varint(&mut cursor)?;
    let packet = read_fields(alloc, &mut cursor, id)?;
    Ok(whole(packet, &cursor)?)
}

/// Reads a packet, whose frame is the bytes after the frame's length.
pub fn read_login_down(alloc: Global, frame: &[u8]) -> Result<LoginDown, PacketRead>
    // What is read is spelled so.
    ensures found { IfOk result (λ packet. SpellsLoginDown packet frame.now) }
    // What is spelled so is read, unless memory runs out.
    ensures only { (packet : LoginDown) → SpellsLoginDown packet frame.now →
        GivesPacket result (Ok packet) }
    // A frame spells one packet at most.
    ensures one { (p q : LoginDown) → SpellsLoginDown p frame.now →
        SpellsLoginDown q frame.now → p ≡ q }
    // Which fault it is.
    ensures exact { GivesPacket result (packet_of frame.now (packet_read rows frame.now)) }
{
    packet_in(alloc, frame).map_err(|error| error.within(frame.len()))
}

/// The id and the fields of a packet; without memory some first part of them.
#[tactic(auto, using(crate::proofs::Wider::wider_16, crate::proofs::Wider::wider_36))]
fn write_fields(packet: &LoginDown, out: &mut Vec<u8>) -> Result<(), NoMemory>
    requires { FitsLoginDown packet.now }
    ensures ok { OnOk result (out.new.items ≡ append_of packet.now out.old.items) }
    ensures begun { OnErr result (take (length out.old.items) out.new.items ≡ out.old.items) }
{
    match packet {
        LoginDown::Disconnect(reason) => put_row(0, reason, out),
        LoginDown::Success(uuid, name) => put_row2(2, uuid, name, out),
    }
}

/// Appends a packet, with its VarInts the shortest. Without memory `out` is as before.
pub fn write_login_down(packet: &LoginDown, out: &mut Vec<u8>) -> Result<(), NoMemory>
    // It has a spelling.
    requires { (bytes : List ℕ) × SpellsLoginDown packet.now bytes }
    ensures ok { OnOk result (out.new.items ≡ out.old.items ++ spelling_of packet.now) }
    ensures spelled { SpellsLoginDown packet.now (spelling_of packet.now) }
    // What is written is read as the same packet.
    ensures again { packet_read rows (spelling_of packet.now) ≡ Ok packet.now }
    ensures err { OnErr result (out.new.items ≡ out.old.items) }
{
    let start = out.len();
    let written = write_fields(packet, out);
    if written.is_err() {
        out.truncate(start);
    }
    written
}
