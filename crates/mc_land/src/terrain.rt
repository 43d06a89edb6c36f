ghost use Rattle.std.specs.Prelude.{◌≡◌, ◌+◌, ◌*◌, ◌<◌, ◌≤◌};
ghost use lib.IntN.{pos, ◌+ℤ◌};
ghost use Rattle.mc_land.specs.Terrain.{wave, height, flat_id, hills_id, hills_biome, isle_id};
ghost use Rattle.mc_land.specs.Terrain.{terrain_state, terrain_biome};

/// What the world is made of before anybody changed it.
#[derive(Clone, Copy, Debug, PartialEq, Eq)]
pub enum Terrain {
    /// Four layers: bedrock, dirt, dirt and grass.
    Flat,
    /// Hills of grass over dirt, stone and bedrock; the number shifts them.
    Hills(u64),
    /// One layer of stone, 16 by 16, in nothing.
    Isle,
}

/// The id of bedrock.
const BEDROCK: u16 = 7;

/// The id of dirt.
const DIRT: u16 = 3;

/// The id of grass.
const GRASS: u16 = 2;

/// The id of stone.
const STONE: u16 = 1;

/// The biome of plains.
pub(crate) const PLAINS: u8 = 1;

/// The biome of high hills.
const HIGH_HILLS: u8 = 3;

/// Hills below this are plains.
const HIGH: u16 = 47;

impl Terrain {
    /// The state of a cell, 0 where it is air. It is the same at each x and z of a layer but on
    /// hills and the isle.
    pub fn state(&self, x: i32, y: u8, z: i32) -> u16
        ensures { result ≡ terrain_state self.now x y z }
    {
        // Only the prover needs this line: what the terrain is.
        let _terrain = *self;
        let id = match self {
            Terrain::Flat => flat_id(y),
            Terrain::Hills(seed) => hills_id(height(*seed, x, z), y),
            Terrain::Isle => isle_id(x, y, z),
        };
        id * 16
    }

    /// The biome at a place.
    pub fn biome(&self, x: i32, z: i32) -> u8
        ensures { result ≡ terrain_biome self.now x z }
    {
        // Only the prover needs this line: what the terrain is.
        let _terrain = *self;
        match self {
            Terrain::Hills(seed) => hills_biome(height(*seed, x, z)),
            _ => PLAINS,
        }
    }
}

/// How far `value` is from `half` in its period of twice that.
fn wave(value: i64, half: u16) -> u16
    requires some { 0 < half }
    requires few { half ≤ 64 }
    ensures is { result ≡ wave value half }
    ensures few { result ≤ half }
{
    let place = value.rem_euclid(i64::from(2 * half)) as u16;
    place.abs_diff(half)
}

/// A number and a small one.
fn shifted(value: i32, shift: u64) -> i64
    requires { shift < 128 }
    ensures { result ≡ value +ℤ pos shift }
{
    i64::from(value) + shift as i64
}

/// The y at which the grass of the hills with a seed stands at x and z: 40 to 54.
pub fn height(seed: u64, x: i32, z: i32) -> u16
    ensures is { result ≡ height seed x z }
    ensures low { 40 ≤ result }
    ensures high { result ≤ 54 }
{
    let east = wave(shifted(x, seed % 128), 64);
    let south = wave(shifted(z, seed / 128 % 96), 48);
    40 + east / 8 + south / 8
}

/// The id at a height of flat land.
pub(crate) fn flat_id(y: u8) -> u16
    ensures is { result ≡ flat_id y }
    ensures small { result < 256 }
{
    match y {
        0 => BEDROCK,
        1 | 2 => DIRT,
        3 => GRASS,
        _ => 0,
    }
}

/// The id at a height of hills whose grass stands at `top`.
pub(crate) fn hills_id(top: u16, y: u8) -> u16
    ensures is { result ≡ hills_id top y }
    ensures small { result < 256 }
{
    let y = u16::from(y);
    if y == 0 {
        return BEDROCK;
    }
    if y + 4 <= top {
        return STONE;
    }
    if y < top {
        return DIRT;
    }
    if y == top {
        return GRASS;
    }
    0
}

/// The id of a cell of the isle.
pub(crate) fn isle_id(x: i32, y: u8, z: i32) -> u16
    ensures is { result ≡ isle_id x y z }
    ensures small { result < 256 }
{
    if y != 63 {
        return 0;
    }
    if x < 0 || 16 <= x {
        return 0;
    }
    if z < 0 || 16 <= z {
        return 0;
    }
    STONE
}

/// The biome of hills of a height.
pub(crate) fn hills_biome(top: u16) -> u8
    ensures { result ≡ hills_biome top }
{
    if top < HIGH { PLAINS } else { HIGH_HILLS }
}
