ghost use Rattle.std.specs.Prelude.{◌≡◌, ◌*◌, ◌^◌, ◌<◌, ◌≤◌, ◌++◌, ℕ, List, Ok, OnOk, OnErr};
ghost use Rattle.mc_bytes.specs.Reading.{Yields};
ghost use Rattle.mc_fields.specs.PositionBits.{FitsCell, FitsHalf, low_bits, signed_bits};
ghost use Rattle.mc_fields.specs.PositionBits.{SpellsPosition, pack, unpack};
ghost use Rattle.mc_fields.specs.PositionBits.{position_read, position_spelling};

use mc_bytes::{Cursor, NoMemory, Stop, write_u64};

/// Half of how many values x and z of a packed position have.
const FLAT_HALF: u64 = 1 << 25;

/// Half of how many values its y has.
const TALL_HALF: u64 = 1 << 11;

/// A block's place, in blocks.
#[derive(Clone, Copy, Debug, PartialEq, Eq)]
pub struct Cell {
    /// To the east.
    pub x: i32,
    /// Up.
    pub y: i32,
    /// To the south.
    pub z: i32,
}

/// An entity's place, in 1/32 blocks, and where it looks, in 1/256 turns.
#[derive(Clone, Copy, Debug, PartialEq, Eq)]
pub struct Spot {
    /// To the east.
    pub x: i32,
    /// Up.
    pub y: i32,
    /// To the south.
    pub z: i32,
    /// The turn about the upright axis.
    pub yaw: u8,
    /// The turn up or down.
    pub pitch: u8,
}

/// A number from `-half` to `half - 1` in two's complement.
fn low_bits(value: i32, half: u64) -> u64
    requires few { half ≤ 2 ^ 25 }
    requires fits { FitsHalf half value }
    ensures value { result ≡ low_bits half value }
    ensures below { result < 2 * half }
{
    if value < 0 {
        (i64::from(value) + (2 * half) as i64) as u64
    } else {
        value as u64
    }
}

/// The number from `-half` to `half - 1` that has these bits.
fn signed_bits(bits: u64, half: u64) -> i32
    requires few { half ≤ 2 ^ 25 }
    requires below { bits < 2 * half }
    ensures { result ≡ signed_bits half bits }
{
    if bits < half {
        bits as i32
    } else {
        bits as i32 - (2 * half) as i32
    }
}

/// A place as the 64 bits of a position: x in the top 26, y in the next 12, z in the low 26.
pub fn pack(cell: Cell) -> u64
    requires { FitsCell cell }
    ensures word { result ≡ pack cell }
    // It can be read again.
    ensures again { unpack result ≡ cell }
{
    let x = low_bits(cell.x, FLAT_HALF);
    let y = low_bits(cell.y, TALL_HALF);
    let z = low_bits(cell.z, FLAT_HALF);
    x * (1 << 38) + y * (1 << 26) + z
}

/// The place that 64 bits of a position name.
pub fn unpack(word: u64) -> Cell
    ensures cell { result ≡ unpack word }
    ensures fits { FitsCell result }
    ensures again { pack result ≡ word }
{
    Cell {
        x: signed_bits(word / (1 << 38), FLAT_HALF),
        y: signed_bits(word / (1 << 26) % (1 << 12), TALL_HALF),
        z: signed_bits(word % (1 << 26), FLAT_HALF),
    }
}

/// Takes a position. `Short` where fewer than eight bytes are left.
pub fn take_position(cursor: &mut Cursor<'_>) -> Result<Cell, Stop>
    ensures { Yields (λ cell. (cell, cursor.new)) result (position_read cursor.old) }
{
    Ok(unpack(cursor.u64()?))
}

/// Appends a position. Without memory `out` is as before.
pub fn write_position(cell: Cell, out: &mut Vec<u8>) -> Result<(), NoMemory>
    requires { FitsCell cell }
    ensures ok { OnOk result (out.new.items ≡ out.old.items ++ position_spelling cell) }
    ensures spelled { SpellsPosition cell (position_spelling cell) }
    // What is written is read again, whatever follows.
    ensures again { (rest : List ℕ) →
        position_read (position_spelling cell ++ rest) ≡ Ok (cell, rest) }
    ensures err { OnErr result (out.new.items ≡ out.old.items) }
{
    write_u64(pack(cell), out)
}
