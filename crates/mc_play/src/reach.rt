//! Which cells are near a place, and next to another.

ghost use Rattle.std.specs.Prelude.{◌≡◌};
ghost use Rattle.mc_fields.specs.PositionBits.{FitsCell};
ghost use Rattle.mc_model.specs.Reach.{at_face, is_close, is_near};

use mc_fields::{Cell, Spot};

/// How far a player reaches, in blocks on each axis.
const REACH: u32 = 6;

/// Whether a block is at most six from that of a coordinate.
fn is_close(block: i32, v: i32) -> bool
    ensures { result ≡ is_close block v }
{
    block.abs_diff(v.div_euclid(32)) <= REACH
}

/// Whether a cell is at most six blocks from that of a place, on each axis.
pub fn is_near(spot: &Spot, cell: &Cell) -> bool
    ensures { result ≡ is_near spot.now cell.now }
{
    if !is_close(cell.x, spot.x) {
        return false;
    }
    is_close(cell.y, spot.y) && is_close(cell.z, spot.z)
}

/// The cell at a face of another, None where the number names no face.
pub fn at_face(cell: &Cell, face: i8) -> Option<Cell>
    requires { FitsCell cell.now }
    ensures { result ≡ at_face cell.now face }
{
    let Cell { x, y, z } = *cell;
    match face {
        0 => Some(Cell { x, y: y - 1, z }),
        1 => Some(Cell { x, y: y + 1, z }),
        2 => Some(Cell { x, y, z: z - 1 }),
        3 => Some(Cell { x, y, z: z + 1 }),
        4 => Some(Cell { x: x - 1, y, z }),
        5 => Some(Cell { x: x + 1, y, z }),
        _ => None,
    }
}
