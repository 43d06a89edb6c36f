ghost use Rattle.std.specs.Prelude.{◌≡◌, ◌++◌, ℕ, List, IfOk, OnOk, OnErr, Ok, take};
ghost use Rattle.std.specs.Prelude.{length};
ghost use Rattle.mc_fields.specs.Row.{GivesRow, GivesPacket, id_read, packet_read, packet_of};
ghost use Rattle.mc_hello.specs.Hand.{rows, SpellsHand, FitsHand, spelling_of, append_of};

use mc_bytes::{Cursor, Kind, NoMemory, ReadError, Text};
use mc_fields::{
    Bounded, Field, PacketRead, RowError, RowFault, VarInt, put_row4, take_varint, whole,
    write_varint,
};
use std::alloc::Global;
use std::marker::Model;

/// A packet of a connection that has not said yet what it wants.
#[derive(Drop)]
pub enum Hand {
    /// The protocol's number, the address and the port that the client connected to, and what it
    /// wants next: 1 the status, 2 to log in.
    Handshake {
        protocol: i32,
        address: Text,
        port: u16,
        next: i32,
    },
}

/// What a client wants next. Contracts see it as its number.
#[derive(Clone, Copy)]
struct Next(i32);

impl Model for Next {
    ghost use Rattle.std.specs.Prelude.{ℤ};

    ghost Value = { ℤ };

    ghost view = { λ next. next.0 };

    ghost inverse = { λ next. record { 0 = next } };
}

impl Field for Next {
    ghost use Rattle.mc_hello.specs.Hand.{next};

    ghost format = { next };

    #[tactic(auto, unfolding(mc_fields::specs::Varint::var_int_read))]
    fn get(_alloc: Global, cursor: &mut Cursor<'_>) -> Result<Next, ReadError> {
        let start = Cursor::new(cursor.rest());
        let next = take_varint(cursor)?;
        if next != 1 && next != 2 {
            return Err(ReadError::Stop(start.stop(Kind::BadNumber)));
        }
        Ok(Next(next))
    }

    fn put(&self, out: &mut Vec<u8>) -> Result<(), NoMemory> {
        write_varint(self.0, out)?;
        Ok(())
    }
}

/// The fields of the packet with this id.
fn read_fields(alloc: Global, cursor: &mut Cursor<'_>, id: i32) -> Result<Hand, RowError>
    ensures { GivesRow (λ packet. (packet, cursor.new)) result (id_read rows id cursor.old) }
{
    match id {
        0 => {
            let (protocol, address, port, next): (VarInt, Bounded<255>, u16, Next) = Field::get(
                alloc, cursor,
            )?;
            Ok(Hand::Handshake {
                protocol: protocol.0,
                address: address.into_text(),
                port,
                next: next.0,
            })
        }
        _ => Err(RowError::Fault(RowFault::UnknownId(id))),
    }
}

/// The packet of a frame, or its first fault, with its place counted from the frame's end.
#[tactic(auto, unfolding(mc_fields::specs::Row::packet_read))]
fn packet_in(alloc: Global, frame: &[u8]) -> Result<Hand, RowError>
    ensures { GivesRow (λ packet. packet) result (packet_read rows frame.now) }
{
    let mut cursor = Cursor::new(frame);
    let id = take_varint(&mut cursor)?;
    let packet = read_fields(alloc, &mut cursor, id)?;
    Ok(whole(packet, &cursor)?)
}

/// Reads a packet, whose frame is the bytes after the frame's length.
pub fn read_hand(alloc: Global, frame: &[u8]) -> Result<Hand, PacketRead>
    // What is read is spelled so.
    ensures found { IfOk result (λ packet. SpellsHand packet frame.now) }
    // What is spelled so is read, unless memory runs out.
    ensures only { (packet : Hand) → SpellsHand packet frame.now →
        GivesPacket result (Ok packet) }
    // A frame spells one packet at most.
    ensures one { (p q : Hand) → SpellsHand p frame.now → SpellsHand q frame.now → p ≡ q }
    // Which fault it is.
    ensures exact { GivesPacket result (packet_of frame.now (packet_read rows frame.now)) }
{
    packet_in(alloc, frame).map_err(|error| error.within(frame.len()))
}

/// The id and the fields of a packet; without memory some first part of them.
#[tactic(auto, using(crate::proofs::Wider::wider_255))]
fn write_fields(packet: &Hand, out: &mut Vec<u8>) -> Result<(), NoMemory>
    requires { FitsHand packet.now }
    ensures ok { OnOk result (out.new.items ≡ append_of packet.now out.old.items) }
    ensures begun { OnErr result (take (length out.old.items) out.new.items ≡ out.old.items) }
{
    match packet {
        Hand::Handshake {
            protocol,
            address,
            port,
            next,
        } => put_row4(0, &VarInt(*protocol), address, port, &Next(*next), out),
    }
}

/// Appends a packet, with its VarInts the shortest. Without memory `out` is as before.
pub fn write_hand(packet: &Hand, out: &mut Vec<u8>) -> Result<(), NoMemory>
    // It has a spelling.
    requires { (bytes : List ℕ) × SpellsHand packet.now bytes }
    ensures ok { OnOk result (out.new.items ≡ out.old.items ++ spelling_of packet.now) }
    ensures spelled { SpellsHand packet.now (spelling_of packet.now) }
    // What is written is read as the same packet.
    ensures again { packet_read rows (spelling_of packet.now) ≡ Ok packet.now }
    ensures err { OnErr result (out.new.items ≡ out.old.items) }
{
    let start = out.len();
    let written = write_fields(packet, out);
    if written.is_err() {
        out.truncate(start);
    }
    written
}
