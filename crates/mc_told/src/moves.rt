//! How a client is told that an entity moved.

ghost use Rattle.std.specs.Prelude.{◌≡◌, ◌++◌, IfOk, OnOk};
ghost use Rattle.mc_view.specs.Forms.{moves_of};
ghost use Rattle.mc_model.specs.Delta.{head_packets, move_packets, moves_packets};
ghost use Rattle.mc_told.specs.EntityFrames.{AreEncoded, is_still, move_bytes};
ghost use Rattle.mc_sending.specs.Sending.{play_bytes};

use crate::encoded_looks::EncodedLooks;
use crate::packets::{head_look, jump, step, step_turn, turn};
use bytes::Bytes;
use mc_bytes::NoMemory;
use mc_fields::Spot;
use mc_sending::put_made;
use mc_view::{Form, Moves, form};
use std::alloc::Global;

/// For how many bytes the frames of a move have room at first: as many as most of them take.
const MOVE_ROOM: usize = 24;

/// Whether neither place nor look is told.
pub fn is_still(form: &Form) -> bool
    ensures { result ≡ is_still form.now }
{
    matches!(form, Form::Still)
}

/// Appends the frame that says where it is and looks now, if it takes one.
fn put_form(eid: i32, spot: &Spot, form: Form, out: &mut Vec<u8>) -> Result<(), NoMemory>
    ensures { OnOk result (out.new.items
        ≡ out.old.items ++ play_bytes (move_packets eid spot.now form)) }
{
    match form {
        Form::Still => Ok(()),
        Form::Step(dx, dy, dz) => put_made(step(eid, dx, dy, dz), out),
        Form::StepTurn(dx, dy, dz) => {
            put_made(step_turn(eid, dx, dy, dz, spot.yaw, spot.pitch), out)
        }
        Form::Turn => put_made(turn(eid, spot.yaw, spot.pitch), out),
        Form::Jump => put_made(jump(eid, spot.x, spot.y, spot.z, spot.yaw, spot.pitch), out),
    }
}

/// Appends the frame that turns its head, where that turns.
fn put_head(eid: i32, spot: &Spot, head: bool, out: &mut Vec<u8>) -> Result<(), NoMemory>
    ensures { OnOk result (out.new.items
        ≡ out.old.items ++ play_bytes (head_packets eid spot.now head)) }
{
    if head {
        put_made(head_look(eid, spot.yaw), out)?;
    }
    Ok(())
}

/// Appends the frames of a move to a spot.
#[inline(never)]
pub fn put_own(eid: i32, to: &Spot, moves: Moves, out: &mut Vec<u8>) -> Result<(), NoMemory>
    ensures { OnOk result (out.new.items
        ≡ out.old.items ++ play_bytes (moves_packets eid to.now moves)) }
{
    put_form(eid, to, moves.form, out)?;
    put_head(eid, to, moves.head, out)?;
    Ok(())
}

/// The frames that tell a client that an entity moved from one spot to another.
pub fn moves_piece(alloc: Global, eid: i32, from: &Spot, to: &Spot) -> Result<Bytes, NoMemory>
    ensures { IfOk result (λ piece. piece ≡ move_bytes eid from.now to.now) }
{
    let mut bytes = Vec::with_capacity(alloc, MOVE_ROOM)?;
    put_own(eid, to, form(*from, *to), &mut bytes)?;
    Ok(Bytes::from_vec(bytes)?)
}

/// Tells a client that an entity moved from one spot to another: the frames that were encoded are
/// due, where it is that move, and others are appended behind those that are due.
pub fn put_moves(
    encoded: &mut EncodedLooks<'_>,
    eid: i32,
    from: &Spot,
    to: &Spot,
    out: &mut Vec<u8>,
) -> Result<(), NoMemory>
    requires { AreEncoded encoded.old.encoded }
    ensures same { encoded.new.encoded ≡ encoded.old.encoded }
    ensures sent { OnOk result (out.new.items ++ encoded.new.due
        ≡ (out.old.items ++ encoded.old.due)
        ++ play_bytes (moves_packets eid to.now (moves_of from.now to.now))) }
{
    // Most stand still, and need no more than this comparison.
    if *from == *to {
        return Ok(());
    }
    if encoded.follow(eid, from, to, out)? {
        return Ok(());
    }
    encoded.put_due(out)?;
    put_own(eid, to, form(*from, *to), out)
}
