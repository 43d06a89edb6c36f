ghost use Rattle.std.specs.Prelude.{◌≡◌, ◌++◌, ◌↔◌, Option, Some, List, ℕ, OnOk, OnErr, IsErrOf};
ghost use Rattle.std.specs.Option.{option_copied};
ghost use Rattle.mc_bytes.specs.declared.fault.FieldFault.{FieldFault};
ghost use Rattle.mc_bytes.specs.declared.fault.ReadFault.TheVariants as faults;
ghost use Rattle.mc_wire.specs.Count.{Rose, StandsOrRises};
ghost use Rattle.mc_wire.specs.Stream.{Grows};
ghost use Rattle.mc_text.specs.Passes.{SendsPart};
ghost use Rattle.mc_replica.specs.Asking.{CanAsk};

use crate::dump_fault::DumpFault;
use crate::replica::Replica;
use mc_bytes::{NoMemory, ReadFault};
use mc_fields::Cell;
use mc_frame::write_frame;
use mc_packets::Down;
use mc_slots::Slot;
use mc_up::{PlayUp, write_play_up};
use mc_wire::Sink;

/// What follows a server for a client: it takes the packets that the client is sent, makes the
/// bytes of those that the client sends, and shows what the client sees. What it stands for is a
/// state of plain data, which is its own value to contracts.
pub trait Seer {
    ghost use lib.IntN.{ℤ};
    ghost use Rattle.mc_fields.specs.declared.position.Cell.{Cell};
    ghost use Rattle.mc_packets.specs.declared.down.Down.{Down};
    ghost use Rattle.mc_slots.specs.declared.slot.Slot.{Slot};
    ghost use Rattle.mc_up.specs.declared.play_up.PlayUp.{PlayUp};

    // Why a state takes a packet not, where it does not.
    ghost refused: { Self → Down → Option FieldFault };

    // The state after a packet that it takes.
    ghost taken: { Self → Down → Self };

    // The state after a packet that is asked for, and the bytes that are sent for it.
    ghost asked: { Self → PlayUp → Self };

    ghost sent: { Self → PlayUp → List ℕ };

    // What a state shows: a block, a slot of the window that is shown, and that window's number.
    ghost block_at: { Self → Cell → Option ℕ };

    ghost slot_at: { Self → ℤ → Option Slot };

    ghost window_at: { Self → ℕ };

    // The dump of a state.
    ghost text: { Self → List ℕ };

    /// Takes a packet that the client is sent. A fault of a field leaves all as before; out of
    /// memory some first part of what the packet changes may be changed.
    fn took(&mut self, packet: &Down) -> Result<(), ReadFault>
        ensures ok { OnOk result (self.new ≡ taken self.old packet.now) }
        ensures fault { (fault : FieldFault) → IsErrOf result (faults.Field fault) ↔
            (refused self.old packet.now ≡ Some fault) }
        ensures kept { (fault : FieldFault) → IsErrOf result (faults.Field fault) →
            self.new ≡ self.old };

    /// Appends the bytes to be sent for a packet of the client's. Without memory all is as before.
    fn ask(&mut self, packet: &PlayUp, out: &mut Vec<u8>) -> Result<(), NoMemory>
        requires { CanAsk packet.now }
        ensures ok { OnOk result (self.new ≡ asked self.old packet.now) }
        ensures sends { OnOk result (out.new.items ≡ out.old.items ++ sent self.old packet.now) }
        ensures kept { OnErr result (self.new ≡ self.old) }
        ensures begun { OnErr result (out.new.items ≡ out.old.items) };

    /// The state of a cell, None exactly where it is not known or y is not 0 to 255.
    fn block(&self, cell: Cell) -> Option<u16>
        ensures { result ≡ block_at self.now cell };

    /// Slot `i` of the window that is shown, None exactly where that has no such slot.
    fn slot(&self, i: i16) -> Option<&Slot>
        ensures { option_copied result ≡ slot_at self.now i };

    /// The number of the window that is shown, 0 where none is.
    fn shown(&self) -> u8
        ensures { result ≡ window_at self.now };

    /// Writes its dump. `Write` comes only where the sink failed; any fault leaves some first part
    /// of the text written.
    fn print<S: Sink>(&self, sink: &mut S) -> Result<(), DumpFault>
        ensures whole { OnOk result (Grows (S.held sink.old) (S.held sink.new) (text self.now)) }
        ensures part { OnErr result
            (SendsPart (S.held sink.old) (S.held sink.new) (text self.now)) }
        ensures failed { IsErrOf result DumpFault.Write →
            Rose (S.faults sink.old) (S.faults sink.new) }
        ensures counts { StandsOrRises (S.faults sink.old) (S.faults sink.new) };
}

// A replica takes what a client is sent as it is, sends each packet as its one frame, and foresees
// nothing.
impl Seer for Replica {
    ghost use Rattle.mc_model.specs.Replica as replica;
    ghost use Rattle.mc_replica.specs.Asking.{frame_of};
    ghost use Rattle.mc_replica.specs.Blocks.{block_in};
    ghost use Rattle.mc_replica.specs.Dump.{dump_text};
    ghost use Rattle.mc_replica.specs.Faults.{fault_in};
    ghost use Rattle.mc_replica.specs.Slots.{number_of, open_slot, window_of};

    ghost refused = { fault_in };

    ghost taken = { replica.apply };

    ghost asked = { λ r packet. r };

    ghost sent = { λ r packet. frame_of packet };

    ghost block_at = { λ r cell. block_in r.sight.columns cell.x cell.y cell.z };

    ghost slot_at = { λ r i. open_slot (window_of r.sight) i };

    ghost window_at = { λ r. number_of r.sight.window };

    ghost text = { dump_text };

    fn took(&mut self, packet: &Down) -> Result<(), ReadFault> {
        self.apply(packet)
    }

    fn ask(&mut self, packet: &PlayUp, out: &mut Vec<u8>) -> Result<(), NoMemory> {
        let mut payload = Vec::new(self.allocator());
        write_play_up(packet, &mut payload)?;
        write_frame(payload.as_slice(), out)
    }

    fn block(&self, cell: Cell) -> Option<u16> {
        self.block(cell)
    }

    fn slot(&self, i: i16) -> Option<&Slot> {
        self.window().slot(i)
    }

    fn shown(&self) -> u8 {
        self.window().number()
    }

    fn print<S: Sink>(&self, sink: &mut S) -> Result<(), DumpFault> {
        self.dump(sink)
    }
}
