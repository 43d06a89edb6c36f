ghost use Rattle.std.specs.Prelude.{◌≡◌, ◌<◌};
ghost use Rattle.mc_model.specs.Mobs.{mob_spot};

use crate::spawn::spawn_spot;
use mc_fields::Spot;
use mc_land::Terrain;

/// How many mobs a world has at most.
pub const MOBS_MAX: usize = 64;
/// How many mobs begin in a row.
pub const MOBS_IN_ROW: u32 = 8;
/// How far mobs begin from each other, in 1/32 of a block.
pub const MOB_STEP: u32 = 64;

/// Where the mob begins before which so many others are.
pub fn mob_spot(terrain: &Terrain, i: u32) -> Spot
    requires { i < 64 }
    ensures { result ≡ mob_spot terrain.now i }
{
    let spawn = spawn_spot(terrain);
    Spot {
        x: spawn.x + (MOB_STEP * (i % MOBS_IN_ROW)) as i32,
        z: spawn.z + (MOB_STEP * (i / MOBS_IN_ROW)) as i32,
        ..spawn
    }
}
