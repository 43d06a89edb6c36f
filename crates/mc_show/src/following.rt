ghost use Rattle.std.specs.Prelude.{◌≡◌, ℕ, [], true, None, Result, IfOk, OnOk};
ghost use Rattle.mc_fields.specs.declared.packet.PacketFault.{PacketFault};
ghost use Rattle.mc_fields.specs.Row.{GivesPacket};
ghost use Rattle.mc_model.specs.Replica.{apply, replay};
ghost use Rattle.mc_capture.specs.Frames.{turn_if, turn_of};
ghost use Rattle.mc_capture.specs.Hearings.{IsSettled, IsWaiting, from_front, goes_on, heard_from};
ghost use Rattle.mc_capture.specs.Hearings.{waiting_in};
ghost use Rattle.mc_capture.specs.Talks.{on_frame};
ghost use Rattle.mc_show.specs.Following.{Brings, FrameBrings, turn_where};
ghost use Rattle.mc_show.specs.PlayPackets.{found_packet, frame_packets};

use mc_bytes::{NoMemory, ReadFault};
use mc_capture::{State, States, Turn, Way, turn_of};
use mc_down::read_down;
use mc_fields::PacketRead;
use mc_frame::{Peek, Splitter};
use mc_packets::Down;
use mc_replica::Replica;
use std::alloc::Global;

// ---- frames

/// Takes a packet. A chunk of a wrong size changes nothing.
fn take_packet(world: &mut Replica, packet: &Down) -> Result<(), NoMemory>
    ensures { OnOk result (world.new ≡ apply world.old packet.now) }
{
    match world.apply(packet) {
        Ok(()) => Ok(()),
        Err(ReadFault::Field(_fault)) => Ok(()),
        Err(ReadFault::NoMemory) => Err(NoMemory),
    }
}

/// Takes the packet that was read, and says whether one was.
fn take_read(world: &mut Replica, read: &Result<Down, PacketRead>) -> Result<bool, NoMemory>
    ensures turns { (packet : Result Down PacketFault) → GivesPacket read.now packet →
        IfOk result (λ goes. turn_if Turn.Stays packet ≡ turn_where goes) }
    ensures world { (packet : Result Down PacketFault) → GivesPacket read.now packet →
        OnOk result (world.new ≡ replay world.old (found_packet packet)) }
{
    match read {
        Ok(packet) => {
            take_packet(world, packet)?;
            Ok(true)
        }
        Err(PacketRead::Fault(_fault)) => Ok(false),
        Err(PacketRead::NoMemory) => Err(NoMemory),
    }
}

/// Takes a frame to a client that plays, and says whether it is a packet of play.
#[tactic(auto, unfolding(mc_capture::specs::Frames::turn_of, crate::specs::PlayPackets::frame_packets))]
fn take_play(alloc: Global, world: &mut Replica, frame: &[u8]) -> Result<bool, NoMemory>
    ensures turns { IfOk result
        (λ goes. turn_of Way.Down State.Play frame.now ≡ turn_where goes) }
    ensures world { OnOk result
        (world.new ≡ replay world.old (frame_packets Way.Down State.Play frame.now)) }
{
    let read = read_down(alloc, frame);
    let goes = take_read(world, &read);
    drop(read);
    goes
}

/// Takes a frame that is no packet of play to the client, and says whether its way goes on.
fn turn_by(alloc: Global, way: Way, states: &mut States, frame: &[u8]) -> Result<bool, NoMemory>
    ensures { IfOk result (λ goes. (k : ℕ) →
        (on_frame k way states.old frame.now).1 ≡ goes_on goes states.new []) }
{
    let Some(turn) = turn_of(alloc, way, states.of(way), frame)? else {
        return Ok(false);
    };
    *states = states.turned(turn, way);
    Ok(true)
}

/// Takes a frame of one way, and says whether the way goes on.
#[tactic(auto, unfolding(crate::specs::PlayPackets::frame_packets))]
fn take_frame(
    alloc: Global,
    way: Way,
    states: &mut States,
    world: &mut Replica,
    frame: &[u8],
) -> Result<bool, NoMemory>
    ensures { IfOk result (λ goes. FrameBrings way states.old frame.now
        (goes_on goes states.new []) world.old world.new) }
{
    match (way, states.down) {
        (Way::Down, State::Play) => take_play(alloc, world, frame),
        _ => turn_by(alloc, way, states, frame),
    }
}

// ---- bytes

/// Takes the frames at the front of the bytes that a splitter holds, and says whether the way goes
/// on, which then holds a part of a frame.
fn take_frames(
    alloc: Global,
    way: Way,
    states: &mut States,
    splitter: &mut Splitter,
    world: &mut Replica,
) -> Result<bool, NoMemory>
    requires { splitter.old.fault ≡ None }
    ensures brings { IfOk result (λ goes. Brings way (from_front states.old) splitter.old.held
        (goes_on goes states.new splitter.new.held) world.old world.new) }
    ensures waiting { IfOk result (λ goes. goes ≡ true → IsWaiting splitter.new) }
{
    'taking: loop {
        match splitter.peek() {
            Peek::Frame(frame, len) => {
                let goes = take_frame(alloc, way, states, world, frame)?;
                if !goes {
                    return Ok(false);
                }
                splitter.pass(len);
            }
            Peek::More => return Ok(true),
            Peek::Bad(_fault) => return Ok(false),
        }
    }
}

/// Takes bytes of one way behind those that a splitter holds, and says whether the way goes on.
fn take_piece(
    alloc: Global,
    way: Way,
    states: &mut States,
    splitter: &mut Splitter,
    world: &mut Replica,
    piece: &[u8],
) -> Result<bool, NoMemory>
    requires { IsWaiting splitter.old }
    ensures brings { IfOk result (λ goes. Brings way (heard_from states.old splitter.old.held)
        piece.now (goes_on goes states.new splitter.new.held) world.old world.new) }
    ensures waiting { IfOk result (λ goes. goes ≡ true → IsWaiting splitter.new) }
{
    let mut rest = piece;
    while !rest.is_empty() {
        let count = splitter.feed(rest)?;
        rest = rest.split_at(count).1;
        let goes = take_frames(alloc, way, states, splitter, world)?;
        if !goes {
            return Ok(false);
        }
    }
    Ok(true)
}

/// Follows a client by bytes of one way of its connection. After its first fault, or without
/// memory, the way is silent and holds nothing.
pub(crate) fn follow(
    alloc: Global,
    way: Way,
    states: &mut States,
    waits: &mut Option<Splitter>,
    world: &mut Replica,
    piece: &[u8],
) -> Result<(), NoMemory>
    requires { IsSettled waits.old }
    ensures brings { OnOk result (Brings way (waiting_in states.old waits.old) piece.now
        (waiting_in states.new waits.new) world.old world.new) }
    ensures settled { IsSettled waits.new }
{
    match waits.take() {
        None => Ok(()),
        Some(mut splitter) => {
            let goes = take_piece(alloc, way, states, &mut splitter, world, piece)?;
            if !goes {
                return Ok(());
            }
            *waits = Some(splitter);
            Ok(())
        }
    }
}
