ghost use Rattle.std.specs.Prelude.{◌≡◌, ◌<◌, ◌≤◌, ◌++◌, [], ℕ, List, OnOk, OnErr, IsErrOf, length};
ghost use Rattle.std.specs.List.{AllByRecursion};
ghost use Rattle.mc_bytes.specs.Reading.{Yields};
ghost use Rattle.mc_frame.specs.Frame.{frame_read};
ghost use Rattle.mc_laws.specs.Pieces.{emptied};
ghost use Rattle.mc_model.specs.Packets.{Sent, bytes_of, frame_of};
ghost use Rattle.mc_model.specs.World.{Seat};
ghost use Rattle.mc_wire.specs.Count.{Rose, StandsOrRises};
ghost use Rattle.mc_text.specs.Passes.{Breaks, Passes};
ghost use Rattle.mc_status.specs.StatusText.{hex_line, sent_lines};
ghost use Rattle.mc_status.specs.Playing.{HasSeat, IsSmall};

use crate::kept_line::KeptLine;
use mc_bytes::{Cursor, Kind, NoMemory, Stop};
use mc_events::Server;
use mc_fields::take_varint_within;
use mc_wire::Sink;
use mc_text::{Unfinished, put};

/// Takes all that the connection is owed, and appends it.
pub fn take_owed(server: &mut Server, owed: &mut Vec<u8>) -> Result<(), NoMemory>
    ensures taken { (s : Seat) → HasSeat server.old s → OnOk result
        (HasSeat server.new (emptied s) × (owed.new.items ≡ owed.old.items ++ s.link.owed)) }
{
    'taking: loop {
        let front = server.front(0);
        let count = front.len();
        if count == 0 {
            return Ok(());
        }
        owed.extend_from_slice(front)?;
        server.took(0, count);
    }
}

/// Takes a frame and gives its payload, without copying it.
#[tactic(auto, unfolding(mc_frame::specs::Frame::frame_read))]
fn take_frame<'a>(cursor: &mut Cursor<'a>) -> Result<&'a [u8], Stop>
    ensures { Yields (λ payload. (payload.now, cursor.new)) result (frame_read cursor.old) }
{
    let start = Cursor::new(cursor.rest());
    let size = take_varint_within(cursor, 3)?;
    match usize::try_from(size) {
        Ok(len) if len > 0 => cursor.take(len),
        _ => Err(start.stop(Kind::BadLength)),
    }
}

/// How many of some bytes make one line: those of the frame at their front.
fn line_len(bytes: &[u8]) -> usize
    ensures within { result ≤ length bytes.now }
    ensures some { 0 < length bytes.now → 0 < result }
    ensures frame { (p : Sent) (more : List ℕ) → IsSmall p → bytes.now ≡ frame_of p ++ more →
        result ≡ length (frame_of p) }
{
    let mut cursor = Cursor::new(bytes);
    match take_frame(&mut cursor) {
        Ok(_payload) => bytes.len() - cursor.rest().len(),
        Err(_stop) => bytes.len(),
    }
}

/// Puts bytes as a line of hex: the line that was made last where it is of these bytes, else one
/// that is made and kept.
fn put_line<O: Sink>(
    bytes: &[u8],
    last: &mut Option<KeptLine>,
    lines: &mut Vec<u8>,
    out: &mut O,
) -> Result<(), Unfinished>
    ensures passes { OnOk result (Passes (O.held out.old) (O.held out.new) lines.old.items
        (hex_line bytes.now) lines.new.items []) }
    ensures breaks { OnErr result
        (Breaks (O.held out.old) (O.held out.new) lines.old.items (hex_line bytes.now)) }
    ensures failed { IsErrOf result Unfinished.Failed → Rose (O.faults out.old) (O.faults out.new) }
    ensures counts { StandsOrRises (O.faults out.old) (O.faults out.new) }
{
    if let Some(kept) = last.as_ref()
        && kept.is_of(bytes)
    {
        return put(kept.line(), lines, out);
    }
    let made = KeptLine::new(*lines.allocator(), bytes)?;
    put(made.line(), lines, out)?;
    *last = Some(made);
    Ok(())
}

/// Puts the frames of some packets, each as a line. `last` is the line that was made last.
pub fn put_lines<O: Sink>(
    frames: &[u8],
    last: &mut Option<KeptLine>,
    lines: &mut Vec<u8>,
    out: &mut O,
) -> Result<(), Unfinished>
    ensures passes { (packets : List Sent) → AllByRecursion IsSmall packets →
        frames.now ≡ bytes_of packets → OnOk result (Passes (O.held out.old) (O.held out.new)
        lines.old.items (sent_lines packets) lines.new.items []) }
    ensures breaks { (packets : List Sent) → AllByRecursion IsSmall packets →
        frames.now ≡ bytes_of packets → OnErr result
        (Breaks (O.held out.old) (O.held out.new) lines.old.items (sent_lines packets)) }
    ensures failed { IsErrOf result Unfinished.Failed → Rose (O.faults out.old) (O.faults out.new) }
    ensures counts { StandsOrRises (O.faults out.old) (O.faults out.new) }
{
    let mut rest = frames;
    while !rest.is_empty() {
        let (line, later) = rest.split_at(line_len(rest));
        put_line(line, last, lines, out)?;
        rest = later;
    }
    Ok(())
}
