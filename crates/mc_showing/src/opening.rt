//! What a client is sent before its first difference.
#![tactic(auto, unfolding(mc_model::specs::Packets::frame_of))]

ghost use Rattle.std.specs.Prelude.{◌≡◌, ◌≤◌, ◌++◌, [], false, OnOk, if◌then◌else◌};
ghost use lib.IntN.{pos};
ghost use lib.Signed.{◌≤ℤ◌};
ghost use Rattle.mc_frame.specs.Kept.{joined};
ghost use Rattle.mc_packets.specs.declared.down.Down.TheVariants.{JoinGame, SpawnPosition};
ghost use Rattle.mc_model.specs.Packets.{of_play, frame_of};
ghost use Rattle.mc_model.specs.Opening.{level, opening_of};
ghost use Rattle.mc_model.specs.Spots.{spawn_height};
ghost use Rattle.mc_flush.specs.Seeing.{is_shown};
ghost use Rattle.mc_sending.specs.Sending.{IsClear, play_bytes};

use bytes::Bytes;
use mc_bytes::NoMemory;
use mc_fields::{Cell, Spot};
use mc_flush::{Mark, placing_packet, put_made};
use mc_land::Terrain;
use mc_loads::push_piece;
use mc_model::{level, spawn_height};
use mc_packets::Down;
use std::alloc::Global;

/// Appends which game a client is in: entity number, game mode, dimension, difficulty, and how many
/// may play.
fn put_join(terrain: &Terrain, most: u32, eid: i32, out: &mut Vec<u8>) -> Result<(), NoMemory>
    requires few { most ≤ 50 }
    requires eid { pos 0 ≤ℤ eid }
    ensures { OnOk result (out.new.items ≡ out.old.items ++ frame_of (of_play
        (JoinGame eid 0 (pos 0) 1 most (level terrain.now) false))) }
{
    let level = level(*out.allocator(), terrain)?;
    let packet = Down::JoinGame {
        eid,
        mode: 0,
        dimension: 0,
        difficulty: 1,
        max_players: most as u8,
        level_type: level,
        reduced_debug_info: false,
    };
    put_made(packet, out)
}

/// Where players enter.
fn spawn_packet(terrain: &Terrain) -> Down
    ensures value { result ≡ SpawnPosition
        (record { x = pos 8; y = pos (spawn_height terrain.now); z = pos 8 }) }
    ensures clear { IsClear (SpawnPosition
        (record { x = pos 8; y = pos (spawn_height terrain.now); z = pos 8 })) }
{
    Down::SpawnPosition(Cell {
        x: 8,
        y: i32::from(spawn_height(terrain)),
        z: 8,
    })
}

/// Appends what a client is sent before its first difference, as one piece.
fn push_first(
    alloc: Global,
    terrain: &Terrain,
    most: u32,
    eid: i32,
    place: &Spot,
    out: &mut Vec<Bytes>,
) -> Result<(), NoMemory>
    requires few { most ≤ 50 }
    requires eid { pos 0 ≤ℤ eid }
    ensures { OnOk result (joined out.new.items ≡ joined out.old.items
        ++ play_bytes (opening_of terrain.now most eid place.now)) }
{
    let mut bytes = Vec::new(alloc);
    put_join(terrain, most, eid, &mut bytes)?;
    put_made(spawn_packet(terrain), &mut bytes)?;
    put_made(placing_packet(place), &mut bytes)?;
    push_piece(Bytes::from_vec(bytes)?, out)
}

/// Appends what a client is sent before its first difference, unless it was shown something.
pub fn push_opening(
    alloc: Global,
    terrain: &Terrain,
    most: u32,
    eid: i32,
    place: &Spot,
    mark: &Mark,
    out: &mut Vec<Bytes>,
) -> Result<(), NoMemory>
    requires few { most ≤ 50 }
    requires eid { pos 0 ≤ℤ eid }
    ensures { OnOk result (joined out.new.items ≡ joined out.old.items
        ++ play_bytes (if is_shown mark.now then [] else
        opening_of terrain.now most eid place.now)) }
{
    if mark.view().is_some() {
        return Ok(());
    }
    push_first(alloc, terrain, most, eid, place, out)
}
