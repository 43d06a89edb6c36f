//! Packets of play as frames.
#![tactic(auto, unfolding(mc_model::specs::Packets::frame_of))]

ghost use Rattle.std.specs.Prelude.{◌≡◌, ◌++◌, OnOk, OnErr};
ghost use Rattle.mc_model.specs.Packets.{of_play, frame_of};
ghost use Rattle.mc_sending.specs.Sending.{IsClear};

use mc_bytes::NoMemory;
use mc_frame::write_frame;
use mc_packets::{Down, write_down};

/// Appends the frame of a packet of play. Without memory the buffer is as before.
pub fn put_packet(packet: &Down, out: &mut Vec<u8>) -> Result<(), NoMemory>
    requires { IsClear packet.now }
    ensures ok { OnOk result (out.new.items ≡ out.old.items ++ frame_of (of_play packet.now)) }
    ensures err { OnErr result (out.new.items ≡ out.old.items) }
{
    let mut payload = Vec::new(*out.allocator());
    write_down(packet, &mut payload)?;
    write_frame(&payload, out)?;
    Ok(())
}

/// Appends the frame of a packet that was made for it, and lets go of that. Without memory the
/// buffer is as before.
pub fn put_made(packet: Down, out: &mut Vec<u8>) -> Result<(), NoMemory>
    requires { IsClear packet }
    ensures ok { OnOk result (out.new.items ≡ out.old.items ++ frame_of (of_play packet)) }
    ensures err { OnErr result (out.new.items ≡ out.old.items) }
{
    let done = put_packet(&packet, out);
    drop(packet);
    done
}
