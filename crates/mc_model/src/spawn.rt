ghost use Rattle.std.specs.Prelude.{◌≡◌, ◌≤◌, IfOk};
ghost use Rattle.mc_model.specs.Opening.{level};
ghost use Rattle.mc_model.specs.Spots.{spawn_height, spawn_spot};

use mc_bytes::{NoMemory, Text};
use mc_fields::Spot;
use mc_land::{Terrain, height};
use std::alloc::Global;

/// How high the ground is where players enter.
pub fn spawn_height(terrain: &Terrain) -> u8
    ensures is { result ≡ spawn_height terrain.now }
    ensures few { result ≤ 64 }
{
    // Only the prover needs this line: what the terrain is.
    let _terrain = *terrain;
    match terrain {
        Terrain::Flat => 4,
        Terrain::Hills(seed) => height(*seed, 8, 8) as u8 + 1,
        Terrain::Isle => 64,
    }
}

/// Where players enter.
pub fn spawn_spot(terrain: &Terrain) -> Spot
    ensures { result ≡ spawn_spot terrain.now }
{
    Spot {
        x: 272,
        y: 32 * i32::from(spawn_height(terrain)),
        z: 272,
        yaw: 0,
        pitch: 0,
    }
}

/// The kind of level that a client is told.
pub fn level(alloc: Global, terrain: &Terrain) -> Result<Text, NoMemory>
    ensures { IfOk result (λ text. text ≡ level terrain.now) }
{
    match terrain {
        Terrain::Flat => Ok(Text::from_str(alloc, "flat")?),
        _ => Ok(Text::from_str(alloc, "default")?),
    }
}
