ghost use Rattle.std.specs.Prelude.{◌≡◌, ◌++◌, [], None, true, IfOk, OnOk, OnErr, IsErrOf};
ghost use Rattle.mc_wire.specs.Count.{Rose, StandsOrRises};
ghost use Rattle.mc_capture.specs.Gathering.{Gathers, WritesPart};
ghost use Rattle.mc_capture.specs.Hearings.{IsSettled, IsWaiting, from_front, goes_on, heard_from};
ghost use Rattle.mc_capture.specs.Hearings.{waiting_in};
ghost use Rattle.mc_capture.specs.Talks.{on_bytes, on_frame};

use crate::frame_lines::{put_fault, put_frame};
use crate::packets::turn_of;
use crate::states::{States, Way};
use crate::unwritten::Unwritten;
use mc_frame::{Peek, Splitter};
use mc_wire::Sink;

/// Shows a frame of one way of a connection: whether the way goes on.
fn hear_frame<O: Sink>(
    k: u32,
    way: Way,
    states: &mut States,
    frame: &[u8],
    lines: &mut Vec<u8>,
    out: &mut O,
) -> Result<bool, Unwritten>
    ensures gathers { OnOk result (Gathers (O.held out.old) (O.held out.new)
        (lines.old.items ++ (on_frame k way states.old frame.now).0) lines.new.items) }
    ensures next { IfOk result
        (λ goes. (on_frame k way states.old frame.now).1 ≡ goes_on goes states.new []) }
    ensures part { OnErr result (WritesPart (O.held out.old) (O.held out.new)
        (lines.old.items ++ (on_frame k way states.old frame.now).0)) }
    ensures failed { IsErrOf result Unwritten.Failed → Rose (O.faults out.old) (O.faults out.new) }
    ensures counts { StandsOrRises (O.faults out.old) (O.faults out.new) }
{
    let state = states.of(way);
    let Some(turn) = turn_of(*lines.allocator(), way, state, frame)? else {
        put_fault(k, way, lines, out)?;
        return Ok(false);
    };
    put_frame(k, way, state, frame, lines, out)?;
    *states = states.turned(turn, way);
    Ok(true)
}

/// Shows the frames at the front of the bytes that a splitter holds: whether the way goes on, which
/// then holds a part of a frame.
fn hear_frames<O: Sink>(
    k: u32,
    way: Way,
    states: &mut States,
    splitter: &mut Splitter,
    lines: &mut Vec<u8>,
    out: &mut O,
) -> Result<bool, Unwritten>
    requires { splitter.old.fault ≡ None }
    ensures gathers { OnOk result (Gathers (O.held out.old) (O.held out.new) (lines.old.items
        ++ (on_bytes k way (from_front states.old) splitter.old.held).0) lines.new.items) }
    ensures next { IfOk result
        (λ goes. (on_bytes k way (from_front states.old) splitter.old.held).1
        ≡ goes_on goes states.new splitter.new.held) }
    ensures waiting { IfOk result (λ goes. goes ≡ true → IsWaiting splitter.new) }
    ensures part { OnErr result (WritesPart (O.held out.old) (O.held out.new)
        (lines.old.items ++ (on_bytes k way (from_front states.old) splitter.old.held).0)) }
    ensures failed { IsErrOf result Unwritten.Failed → Rose (O.faults out.old) (O.faults out.new) }
    ensures counts { StandsOrRises (O.faults out.old) (O.faults out.new) }
{
    'taking: loop {
        match splitter.peek() {
            Peek::Frame(frame, len) => {
                let goes = hear_frame(k, way, states, frame, lines, out)?;
                if !goes {
                    return Ok(false);
                }
                splitter.pass(len);
            }
            Peek::More => return Ok(true),
            Peek::Bad(_fault) => {
                put_fault(k, way, lines, out)?;
                return Ok(false);
            }
        }
    }
}

/// Shows bytes of one way behind those that a splitter holds: whether the way goes on.
fn hear_piece<O: Sink>(
    k: u32,
    way: Way,
    states: &mut States,
    splitter: &mut Splitter,
    piece: &[u8],
    lines: &mut Vec<u8>,
    out: &mut O,
) -> Result<bool, Unwritten>
    requires { IsWaiting splitter.old }
    ensures gathers { OnOk result (Gathers (O.held out.old) (O.held out.new) (lines.old.items
        ++ (on_bytes k way (heard_from states.old splitter.old.held) piece.now).0)
        lines.new.items) }
    ensures next { IfOk result
        (λ goes. (on_bytes k way (heard_from states.old splitter.old.held) piece.now).1
        ≡ goes_on goes states.new splitter.new.held) }
    ensures waiting { IfOk result (λ goes. goes ≡ true → IsWaiting splitter.new) }
    ensures part { OnErr result (WritesPart (O.held out.old) (O.held out.new) (lines.old.items
        ++ (on_bytes k way (heard_from states.old splitter.old.held) piece.now).0)) }
    ensures failed { IsErrOf result Unwritten.Failed → Rose (O.faults out.old) (O.faults out.new) }
    ensures counts { StandsOrRises (O.faults out.old) (O.faults out.new) }
{
    let mut rest = piece;
    while !rest.is_empty() {
        let count = splitter.feed(rest)?;
        rest = rest.split_at(count).1;
        let goes = hear_frames(k, way, states, splitter, lines, out)?;
        if !goes {
            return Ok(false);
        }
    }
    Ok(true)
}

/// Shows bytes of one way of a connection. After its first fault, or without memory, the way is
/// silent and holds nothing.
pub(crate) fn hear<O: Sink>(
    k: u32,
    way: Way,
    states: &mut States,
    waits: &mut Option<Splitter>,
    piece: &[u8],
    lines: &mut Vec<u8>,
    out: &mut O,
) -> Result<(), Unwritten>
    requires { IsSettled waits.old }
    ensures gathers { OnOk result (Gathers (O.held out.old) (O.held out.new) (lines.old.items
        ++ (on_bytes k way (waiting_in states.old waits.old) piece.now).0) lines.new.items) }
    ensures next { OnOk result ((on_bytes k way (waiting_in states.old waits.old) piece.now).1
        ≡ waiting_in states.new waits.new) }
    ensures settled { IsSettled waits.new }
    ensures part { OnErr result (WritesPart (O.held out.old) (O.held out.new) (lines.old.items
        ++ (on_bytes k way (waiting_in states.old waits.old) piece.now).0)) }
    ensures failed { IsErrOf result Unwritten.Failed → Rose (O.faults out.old) (O.faults out.new) }
    ensures counts { StandsOrRises (O.faults out.old) (O.faults out.new) }
{
    match waits.take() {
        None => Ok(()),
        Some(mut splitter) => {
            let goes = hear_piece(k, way, states, &mut splitter, piece, lines, out)?;
            if !goes {
                return Ok(());
            }
            *waits = Some(splitter);
            Ok(())
        }
    }
}
