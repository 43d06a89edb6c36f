ghost use Rattle.std.specs.Prelude.{◌≡◌, Result, IfOk};
ghost use Rattle.mc_fields.specs.declared.packet.PacketFault.{PacketFault};
ghost use Rattle.mc_fields.specs.Row.{GivesPacket, packet_of, packet_read};
ghost use Rattle.mc_hello.specs.Hand.{rows as hand_rows};
ghost use Rattle.mc_hello.specs.LoginDown.{rows as login_down_rows};
ghost use Rattle.mc_capture.specs.Frames.{admission_of, greeting_of, turn_if, turn_of};

use crate::states::{State, Turn, Way, wanted_state};
use mc_bytes::NoMemory;
use mc_down::read_down;
use mc_fields::PacketRead;
use mc_hello::{
    Hand, LoginDown, read_hand, read_login_down, read_login_up, read_status_down, read_status_up,
};
use mc_up::read_play_up;
use std::alloc::Global;

/// What a frame changes of how far its connection has come, by its way and the state that this has
/// come to. None where it is no packet of that state.
#[tactic(auto, unfolding(crate::specs::Frames::turn_of))]
pub fn turn_of(
    alloc: Global,
    way: Way,
    state: State,
    frame: &[u8],
) -> Result<Option<Turn>, NoMemory>
    ensures { IfOk result (λ turn. turn ≡ turn_of way state frame.now) }
{
    match way {
        Way::Up => turn_up(alloc, state, frame),
        Way::Down => turn_down(alloc, state, frame),
    }
}

/// What a frame of a client changes.
#[tactic(auto, unfolding(crate::specs::Frames::turn_of))]
fn turn_up(alloc: Global, state: State, frame: &[u8]) -> Result<Option<Turn>, NoMemory>
    ensures { IfOk result (λ turn. turn ≡ turn_of Way.Up state frame.now) }
{
    match state {
        State::Hand => greeting(alloc, frame),
        State::Status => turn_if(read_status_up(frame), Turn::Stays),
        State::Login => turn_if(read_login_up(alloc, frame), Turn::Plays),
        State::Play => turn_if(read_play_up(alloc, frame), Turn::Stays),
    }
}

/// What a frame to a client changes.
#[tactic(auto, unfolding(crate::specs::Frames::turn_of))]
fn turn_down(alloc: Global, state: State, frame: &[u8]) -> Result<Option<Turn>, NoMemory>
    ensures { IfOk result (λ turn. turn ≡ turn_of Way.Down state frame.now) }
{
    match state {
        State::Hand => Ok(None),
        State::Status => turn_if(read_status_down(alloc, frame), Turn::Stays),
        State::Login => admission(alloc, frame),
        State::Play => turn_if(read_down(alloc, frame), Turn::Stays),
    }
}

/// What a packet that was read changes, where it is one.
fn turn_if<P: Drop>(read: Result<P, PacketRead>, turn: Turn) -> Result<Option<Turn>, NoMemory>
    ensures { (packet : Result P PacketFault) → GivesPacket read packet →
        IfOk result (λ found. found ≡ turn_if turn packet) }
{
    match read {
        Ok(_packet) => Ok(Some(turn)),
        Err(PacketRead::Fault(_fault)) => Ok(None),
        Err(PacketRead::NoMemory) => Err(NoMemory),
    }
}

/// What the frame of a handshake changes.
fn greeting(alloc: Global, frame: &[u8]) -> Result<Option<Turn>, NoMemory>
    ensures { IfOk result
        (λ turn. turn ≡ greeting_of (packet_of frame.now (packet_read hand_rows frame.now))) }
{
    match read_hand(alloc, frame) {
        Ok(Hand::Handshake { next, .. }) => Ok(Some(Turn::Greets(wanted_state(next)))),
        Err(PacketRead::Fault(_fault)) => Ok(None),
        Err(PacketRead::NoMemory) => Err(NoMemory),
    }
}

/// What a frame to a client that logs in changes.
fn admission(alloc: Global, frame: &[u8]) -> Result<Option<Turn>, NoMemory>
    ensures { IfOk result (λ turn.
        turn ≡ admission_of (packet_of frame.now (packet_read login_down_rows frame.now))) }
{
    match read_login_down(alloc, frame) {
        Ok(LoginDown::Disconnect(_reason)) => Ok(Some(Turn::Stays)),
        Ok(LoginDown::Success(_uuid, _name)) => Ok(Some(Turn::Plays)),
        Err(PacketRead::Fault(_fault)) => Ok(None),
        Err(PacketRead::NoMemory) => Err(NoMemory),
    }
}
