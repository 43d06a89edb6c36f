ghost use Rattle.std.specs.Prelude.{◌≡◌, ◌≤◌, ◌++◌, ℕ, List, Ok, OnOk, OnErr, IfOk, IfErr, length};
ghost use Rattle.std.specs.Prelude.{take};
ghost use Rattle.mc_bytes.specs.Reading.{Yields};
ghost use Rattle.mc_frame.specs.Frame.{IsPayload, SpellsFrame, frame_read, frame_spelling};
ghost use Rattle.mc_frame.specs.Cut.{Ends};
ghost use Rattle.mc_frame.specs.Faults.{fault_of};

use crate::FrameFault;
use mc_bytes::{Cursor, Kind, NoMemory, Stop, write_octets};
use mc_fields::{take_varint_within, write_varint};

/// The most bytes that a frame's length has.
const LENGTH_MAX: usize = 3;

/// Takes a frame and gives its payload, without copying it. `BadLength` where its length is not 1
/// at least.
#[tactic(auto, unfolding(crate::specs::Frame::frame_read))]
fn take_frame<'a>(cursor: &mut Cursor<'a>) -> Result<&'a [u8], Stop>
    ensures { Yields (λ payload. (payload.now, cursor.new)) result (frame_read cursor.old) }
{
    let start = Cursor::new(cursor.rest());
    let size = take_varint_within(cursor, LENGTH_MAX)?;
    match usize::try_from(size) {
        Ok(len) if len > 0 => cursor.take(len),
        _ => Err(start.stop(Kind::BadLength)),
    }
}

/// The fault of a stream whose reading stopped so, with `count` bytes before the frame. None where
/// the bytes end inside the frame.
fn fault_of(kind: Kind, count: u64) -> Option<FrameFault>
    ensures { result ≡ fault_of kind count }
{
    match kind {
        Kind::Short => None,
        Kind::LongVarInt => Some(FrameFault::LongLength(count)),
        _ => Some(FrameFault::ZeroLength(count)),
    }
}

/// The payload of the frame at the front of some bytes and how many bytes the frame has, or why
/// there is no whole frame, where `count` bytes of the stream stand before.
pub fn front_frame(bytes: &[u8], count: u64) -> Result<(&[u8], usize), Option<FrameFault>>
    ensures within { IfOk result (λ frame. frame.1 ≤ length bytes.now) }
    ensures found { IfOk result (λ frame. SpellsFrame frame.0.now (take frame.1 bytes.now)) }
    ensures ends { IfErr result (λ fault. Ends count bytes.now fault) }
{
    let mut cursor = Cursor::new(bytes);
    match take_frame(&mut cursor) {
        Ok(payload) => Ok((payload, bytes.len() - cursor.rest().len())),
        Err(stop) => Err(fault_of(stop.kind, count)),
    }
}

/// Appends a frame with this payload of 1 to 2,097,151 bytes, its length as a shortest VarInt.
/// Without memory `out` is as before.
#[tactic(auto, using(crate::specs::FrameLaws::frame_spelled), unfolding(crate::specs::Frame::frame_spelling))]
pub fn write_frame(payload: &[u8], out: &mut Vec<u8>) -> Result<(), NoMemory>
    requires { IsPayload payload.now }
    ensures ok { OnOk result (out.new.items ≡ out.old.items ++ frame_spelling payload.now) }
    ensures spelled { SpellsFrame payload.now (frame_spelling payload.now) }
    ensures shortest { (bytes : List ℕ) → SpellsFrame payload.now bytes →
        length (frame_spelling payload.now) ≤ length bytes }
    // What is written is read again, whatever follows.
    ensures again { (rest : List ℕ) →
        frame_read (frame_spelling payload.now ++ rest) ≡ Ok (payload.now, rest) }
    ensures err { OnErr result (out.new.items ≡ out.old.items) }
{
    let start = out.len();
    write_varint(payload.len() as i32, out)?;
    if write_octets(payload, out).is_err() {
        out.truncate(start);
        return Err(NoMemory);
    }
    Ok(())
}
