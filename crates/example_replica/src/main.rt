//! An example for who writes a bot or a proxy: a stream that a server sent a client, recorded as
//! lines of hex, is folded into what the client sees. Two blocks are asked for, and all that the
//! client sees is printed.
//!
//! It stands on `mc_frame` and `mc_down`, which cut the stream into packets, and on `mc_replica`,
//! whose one contract is that each packet makes of the client's world what the definitions make.
#![tactic(auto)]

mod recorded;

use mc_bytes::{NoMemory, ReadFault};
use mc_down::read_down;
use mc_fields::Cell;
use mc_frame::{Splitter, Take};
use mc_replica::{DumpFault, Replica};
use mc_wire::SteadySink;
use recorded::stream_of;
use std::alloc::Global;
use std::io;
use std::io::Write;

/// Two cells of a column: one that nobody changed, and one that was dug.
const CELLS: [Cell; 2] = [Cell { x: 1, y: 2, z: 2 }, Cell { x: 1, y: 3, z: 2 }];

/// Why a stream is not shown.
enum Fault {
    NoMemory,
    /// These bytes are no frame, no packet or no body of a column.
    Stream,
}

impl From<NoMemory> for Fault {
    fn from(_: NoMemory) -> Fault {
        Fault::NoMemory
    }
}

impl From<DumpFault> for Fault {
    fn from(_: DumpFault) -> Fault {
        // The sink of this program takes all that there is memory for.
        Fault::NoMemory
    }
}

/// Takes a packet of play into account.
fn take_packet(alloc: Global, replica: &mut Replica, frame: &[u8]) -> Result<(), Fault> {
    let Ok(packet) = read_down(alloc, frame) else {
        return Err(Fault::Stream);
    };
    let taken = replica.apply(&packet);
    drop(packet);
    match taken {
        Ok(()) => Ok(()),
        Err(ReadFault::Field(_)) => Err(Fault::Stream),
        Err(ReadFault::NoMemory) => Err(Fault::NoMemory),
    }
}

/// Takes each frame of a stream into account but the first, which is the answer to the login.
fn fold(alloc: Global, replica: &mut Replica, stream: &[u8]) -> Result<(), Fault> {
    let mut splitter = Splitter::new(alloc);
    splitter.feed(stream)?;
    for number in 0..stream.len() {
        match splitter.take()? {
            Take::Frame(frame) if number > 0 => take_packet(alloc, replica, frame.as_slice())?,
            Take::Frame(_) => {}
            Take::More => return Ok(()),
            Take::Bad(_) => return Err(Fault::Stream),
        }
    }
    Ok(())
}

/// Says which block is in a cell.
fn say_block(alloc: Global, replica: &Replica, cell: Cell) -> Result<String, NoMemory> {
    let Cell { x, y, z } = cell;
    match replica.block(cell) {
        Some(state) => Ok(format!(in alloc; "{x} {y} {z} is {state}\n")?),
        None => Ok(format!(in alloc; "{x} {y} {z} is not known\n")?),
    }
}

/// Says which blocks are in some cells, and all that a client sees.
fn say(alloc: Global, replica: &Replica, sink: &mut SteadySink) -> Result<String, Fault> {
    let mut said = String::new(alloc);
    for cell in CELLS {
        said.push_str(say_block(alloc, replica, cell)?.as_str())
            .map_err(NoMemory::from)?;
    }
    replica.dump(sink)?;
    Ok(said)
}

fn main(rt: HostRuntime) -> io::Result<()> {
    let alloc = rt.alloc();
    let text = io::read_to_string(alloc, rt.reader())?;
    let mut out = io::writer(&rt);
    let mut replica = Replica::new(alloc);
    let mut sink = SteadySink::new(alloc);
    let folded = play(alloc, &mut replica, text.as_str(), &mut sink);
    drop(replica);
    match folded {
        Ok(said) => {
            write!(out, "{said}")?;
            out.write_all(sink.held().unwrap_or(&[]))
        }
        Err(Fault::Stream) => writeln!(out, "no stream"),
        Err(Fault::NoMemory) => writeln!(out, "out of memory"),
    }
}

/// Folds a recorded stream, and says what the client sees.
fn play(
    alloc: Global,
    replica: &mut Replica,
    text: &str,
    sink: &mut SteadySink,
) -> Result<String, Fault> {
    let Some(stream) = stream_of(alloc, text)? else {
        return Err(Fault::Stream);
    };
    fold(alloc, replica, &stream)?;
    say(alloc, replica, sink)
}
