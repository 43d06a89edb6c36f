//! Packets as the frames that are sent.

ghost use Rattle.std.specs.Prelude.{◌≡◌, ◌++◌, OnOk, OnErr};
ghost use Rattle.mc_load.specs.Framed.{CanSend, packet_frame};

use mc_bytes::NoMemory;
use mc_frame::write_frame;
use mc_up::{PlayUp, write_play_up};
use std::alloc::Global;

/// For how many bytes a payload has room at first: as many as those of most packets.
const PAYLOAD_ROOM: usize = 64;

/// Appends the frame of a packet, and lets go of it. Without memory `out` is as before.
pub fn put_frame(alloc: Global, packet: PlayUp, out: &mut Vec<u8>) -> Result<(), NoMemory>
    requires { CanSend packet }
    ensures ok { OnOk result (out.new.items ≡ out.old.items ++ packet_frame packet) }
    ensures err { OnErr result (out.new.items ≡ out.old.items) }
{
    let mut payload = Vec::with_capacity(alloc, PAYLOAD_ROOM)?;
    let written = write_play_up(&packet, &mut payload);
    drop(packet);
    written?;
    write_frame(payload.as_slice(), out)
}
