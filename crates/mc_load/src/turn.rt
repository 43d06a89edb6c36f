//! What a client sends before a tick.

ghost use Rattle.std.specs.Prelude.{◌≡◌, ◌++◌, ◌<◌, ◌≤◌, OnOk, OnErr, length, take};
ghost use Rattle.std.specs.List.{flat_map};
ghost use Rattle.mc_load.specs.Framed.{CanSend, packet_frame};
ghost use Rattle.mc_load.specs.Load.{turn_answer, turn_bytes, turn_dig, turn_move};

use crate::framing::put_frame;
use mc_bytes::NoMemory;
use mc_fields::{Cell, pattern};
use mc_up::PlayUp;
use std::alloc::Global;

/// Where a client stands at a tick.
fn turn_move(client: u32, tick: u32) -> PlayUp
    requires client { client < 50 }
    requires tick { tick ≤ 10000 }
    ensures is { result ≡ turn_move client tick }
    ensures can { CanSend result }
{
    let east = 272 + 8 * ((tick + 7 * client) % 64);
    let south = 272 + 16 * (client % 8);
    PlayUp::Position {
        x: pattern(east as i32),
        y: pattern(128),
        z: pattern(south as i32),
        on_ground: true,
    }
}

/// Appends that a client digs, every tenth tick. Without memory `out` is as before.
fn put_dig(alloc: Global, client: u32, tick: u32, out: &mut Vec<u8>) -> Result<(), NoMemory>
    ensures ok { OnOk result
        (out.new.items ≡ out.old.items ++ flat_map packet_frame (turn_dig client tick)) }
    ensures err { OnErr result (out.new.items ≡ out.old.items) }
{
    if tick % 10 != client % 10 {
        return Ok(());
    }
    let cell = Cell {
        x: 8 + (client % 4) as i32,
        y: 3,
        z: 8 + (tick % 4) as i32,
    };
    put_frame(alloc, PlayUp::Digging(2, cell, 1), out)
}

/// Appends the answer to a beat, every hundredth tick. Without memory `out` is as before.
fn put_answer(alloc: Global, tick: u32, out: &mut Vec<u8>) -> Result<(), NoMemory>
    requires { tick ≤ 10000 }
    ensures ok { OnOk result
        (out.new.items ≡ out.old.items ++ flat_map packet_frame (turn_answer tick)) }
    ensures err { OnErr result (out.new.items ≡ out.old.items) }
{
    if tick % 100 != 0 {
        return Ok(());
    }
    put_frame(alloc, PlayUp::KeepAlive((tick / 100) as i32), out)
}

/// Appends the frames of a turn. Without memory what was there stays at the front.
fn put_turn_frames(alloc: Global, client: u32, tick: u32, out: &mut Vec<u8>) -> Result<(), NoMemory>
    requires client { client < 50 }
    requires tick { tick ≤ 10000 }
    ensures ok { OnOk result (out.new.items ≡ out.old.items ++ turn_bytes client tick) }
    ensures err { OnErr result (take (length out.old.items) out.new.items ≡ out.old.items) }
{
    put_frame(alloc, turn_move(client, tick), out)?;
    put_dig(alloc, client, tick, out)?;
    put_answer(alloc, tick, out)
}

/// Appends what a client sends before a tick: where it stands, and now and then that it digs and
/// what answers a beat. Without memory `out` is as before.
pub fn put_turn(alloc: Global, client: u32, tick: u32, out: &mut Vec<u8>) -> Result<(), NoMemory>
    requires client { client < 50 }
    requires tick { tick ≤ 10000 }
    ensures ok { OnOk result (out.new.items ≡ out.old.items ++ turn_bytes client tick) }
    ensures err { OnErr result (out.new.items ≡ out.old.items) }
{
    let start = out.len();
    let written = put_turn_frames(alloc, client, tick, out);
    if written.is_err() {
        out.truncate(start);
    }
    written
}
