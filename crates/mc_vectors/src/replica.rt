//! A client's world: `replica CALL ..` works on the one that the rows before it left.

ghost use Rattle.std.specs.Prelude.{List, ℕ};
ghost use Rattle.mc_up.specs.PlayUp.{SpellsPlayUp};

use crate::fields::packet_read;
use crate::slots::put_slot;
use mc_bytes::ReadFault;
use mc_down::read_down;
use mc_fields::Cell;
use mc_replica::{Replica, Seer};
use mc_rows::{Answer, Words, look_up};
use mc_up::{PlayUp, read_play_up, write_play_up};
use mc_wire::{MemorySink, SteadySink};

/// The most bytes that a packet has in a frame.
const PACKET_MAX: usize = 2_097_151;

/// A call of a client's world.
#[derive(Clone, Copy)]
enum Call {
    New,
    Take,
    Ask,
    Block,
    Slot,
    Loaded,
    Dump,
    Refused,
}

/// The calls by their words.
const CALLS: [(&str, Call); 8] = [
    ("new", Call::New),
    ("take", Call::Take),
    ("ask", Call::Ask),
    ("block", Call::Block),
    ("slot", Call::Slot),
    ("loaded", Call::Loaded),
    ("dump", Call::Dump),
    ("refused", Call::Refused),
];

/// The call that a word names.
fn call_of(name: &str) -> Option<Call> {
    look_up(&CALLS, name)
}

/// Answers a call of a client's world.
pub fn replica(replica: &mut Replica, words: &mut Words<'_>, answer: &mut Answer) {
    match call_of(words.word()) {
        Some(Call::New) => *replica = Replica::new(words.alloc),
        Some(Call::Take) => take(replica, words, answer),
        Some(Call::Ask) => ask(replica, words, answer),
        Some(named) => look(replica, named, words, answer),
        None => words.fail(),
    }
}

/// Answers a look at it.
fn look(replica: &Replica, call: Call, words: &mut Words<'_>, answer: &mut Answer) {
    match call {
        Call::Block => block(replica, words, answer),
        Call::Slot => slot(replica, words, answer),
        Call::Loaded => loaded(replica, words, answer),
        Call::Dump => dump(replica, words, answer),
        Call::Refused => refused(replica, words, answer),
        _ => words.fail(),
    }
}

/// Takes the packet of a frame.
fn take(replica: &mut Replica, words: &mut Words<'_>, answer: &mut Answer) {
    let frame = words.bytes();
    match read_down(words.alloc, &frame) {
        Ok(packet) => {
            let taken = replica.took(&packet);
            drop(packet);
            put_taken(taken, answer);
        }
        Err(error) => packet_read(error, answer),
    }
}

/// Puts why a packet was not taken.
fn put_taken(taken: Result<(), ReadFault>, answer: &mut Answer) {
    if let Err(fault) = taken {
        answer.read_fault(fault);
    }
}

/// Puts the frame that is sent for the packet of a frame.
fn ask(replica: &mut Replica, words: &mut Words<'_>, answer: &mut Answer) {
    let frame = words.bytes();
    match read_play_up(words.alloc, &frame) {
        Ok(packet) => {
            put_asked(replica, &packet, answer);
            drop(packet);
        }
        Err(error) => packet_read(error, answer),
    }
}

/// Puts the frame that is sent for a packet.
fn put_asked(replica: &mut Replica, packet: &PlayUp, answer: &mut Answer)
    requires { (bytes : List ℕ) × SpellsPlayUp packet.now bytes }
{
    let mut payload = Vec::new(answer.alloc());
    if write_play_up(packet, &mut payload).is_err() || payload.len() > PACKET_MAX {
        answer.lose();
        return;
    }
    let mut out = Vec::new(answer.alloc());
    answer.needs(replica.ask(packet, &mut out));
    answer.bytes(&out);
}

/// Puts the state of a cell.
fn block(replica: &Replica, words: &mut Words<'_>, answer: &mut Answer) {
    let cell = Cell {
        x: words.number(),
        y: words.number(),
        z: words.number(),
    };
    match Seer::block(replica, cell) {
        Some(state) => answer.word(state),
        None => answer.word("none"),
    }
}

/// Puts a slot of the window that is shown.
fn slot(replica: &Replica, words: &mut Words<'_>, answer: &mut Answer) {
    answer.word(replica.shown());
    match replica.slot(words.number()) {
        Some(slot) => put_slot(slot, answer),
        None => answer.word("none"),
    }
}

/// Puts how many columns are loaded, and the place of one.
fn loaded(replica: &Replica, words: &mut Words<'_>, answer: &mut Answer) {
    answer.word(replica.columns());
    match replica.loaded(words.number()) {
        Some((cx, cz)) => {
            answer.word(cx);
            answer.word(cz);
        }
        None => answer.word("none"),
    }
}

/// Puts its dump.
fn dump(replica: &Replica, words: &mut Words<'_>, answer: &mut Answer) {
    let mut sink = SteadySink::new(words.alloc);
    answer.needs(replica.print(&mut sink));
    answer.shown(sink.held().unwrap_or(&[]));
    drop(sink);
}

/// Puts why a sink that fails at once takes no dump, and what it holds.
fn refused(replica: &Replica, words: &mut Words<'_>, answer: &mut Answer) {
    let mut fails = Vec::new(words.alloc);
    answer.needs(fails.push(0));
    let mut sink = MemorySink::new(words.alloc, fails);
    match replica.print(&mut sink) {
        Ok(()) => answer.word("written"),
        Err(fault) => answer.name(fault),
    }
    answer.shown(sink.held().unwrap_or(&[]));
    drop(sink);
}
