ghost use Rattle.std.specs.Prelude.{◌≡◌, ◌<◌, ℕ, unsigned_abs};
ghost use lib.Signed.{◌≤ℤ◌, ◌<ℤ◌};
ghost use lib.IntN.{pos};
ghost use Rattle.mc_land.specs.Places.{column_number, inside, is_height, is_inside};
ghost use Rattle.mc_land.specs.Places.{is_within_border, key_of, place_of};

use crate::ready::index_of;
use mc_fields::Cell;

/// How far from the middle a cell can be set, along x and along z.
pub const BORDER: u32 = 30_000_000;

/// How far from the middle the columns lie of which the calls of a land may be told, along each
/// axis, in columns.
pub const COLUMN_BORDER: u32 = 1_875_010;

/// A column of cells by its numbers: 16 times the first is its lowest x, and 16 times the second
/// its lowest z.
pub(crate) type Place = (i32, i32);

/// The number of the sixteen cells along an axis in which one is.
fn column_number(v: i32) -> i32
    ensures { result ≡ column_number v }
{
    v.div_euclid(16)
}

/// Which of the sixteen it is.
fn inside(v: i32) -> u8
    ensures is { result ≡ inside v }
    ensures few { result < 16 }
{
    v.rem_euclid(16) as u8
}

/// The column that a cell is in.
pub(crate) fn place_of(cell: &Cell) -> Place
    ensures { result ≡ place_of cell.now.x cell.now.z }
{
    (column_number(cell.x), column_number(cell.z))
}

/// Where in its column a cell is, along x.
pub(crate) fn x_inside(cell: &Cell) -> u8
    ensures is { result ≡ inside cell.now.x }
    ensures few { result < 16 }
{
    inside(cell.x)
}

/// Where in its column a cell is, along z.
pub(crate) fn z_inside(cell: &Cell) -> u8
    ensures is { result ≡ inside cell.now.z }
    ensures few { result < 16 }
{
    inside(cell.z)
}

/// How high a cell of the world is.
pub(crate) fn height_of(cell: &Cell) -> u8
    requires above { pos 0 ≤ℤ cell.now.y }
    requires below { cell.now.y <ℤ pos 256 }
    ensures { pos result ≡ cell.now.y }
{
    cell.y as u8
}

/// A cell of the world by its column, and by its index in that.
pub(crate) fn key_of(cell: &Cell) -> (Place, u16)
    requires above { pos 0 ≤ℤ cell.now.y }
    requires below { cell.now.y <ℤ pos 256 }
    ensures is { result ≡ key_of cell.now.x (unsigned_abs cell.now.y) cell.now.z }
    ensures at { (y : ℕ) → cell.now.y ≡ pos y → result ≡ key_of cell.now.x y cell.now.z }
{
    let index = index_of(x_inside(cell), height_of(cell), z_inside(cell));
    (place_of(cell), index)
}

/// Whether a cell can be set: it is at a height of the world and not too far out.
pub fn is_inside(cell: &Cell) -> bool
    ensures { result ≡ is_inside cell.now.x cell.now.y cell.now.z }
{
    is_height(cell.y) && is_within_border(cell.x) && is_within_border(cell.z)
}

/// Whether a number is a height of the world.
fn is_height(y: i32) -> bool
    ensures { result ≡ is_height y }
{
    0 <= y && y < 256
}

/// Whether a number is not past the border of the world.
fn is_within_border(v: i32) -> bool
    ensures { result ≡ is_within_border v }
{
    v.unsigned_abs() <= BORDER
}
