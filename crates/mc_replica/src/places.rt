ghost use Rattle.std.specs.Prelude.{◌≡◌, ◌<◌};
ghost use Rattle.mc_land.specs.Places.{column_number, inside, place_of};
ghost use Rattle.mc_model.specs.Replica.{low_state};

use mc_fields::Cell;

/// A column of cells by its numbers: 16 times the first is its lowest x, and 16 times the second
/// its lowest z.
pub(crate) type Place = (i32, i32);

/// The number of the sixteen cells along an axis in which one is.
fn column_number(v: i32) -> i32
    ensures { result ≡ column_number v }
{
    v.div_euclid(16)
}

/// Which of the sixteen it is.
pub(crate) fn inside(v: i32) -> u8
    ensures is { result ≡ inside v }
    ensures few { result < 16 }
{
    v.rem_euclid(16) as u8
}

/// The column of these numbers.
pub(crate) fn place_at(cx: &i32, cz: &i32) -> Place
    ensures { result ≡ (cx.now, cz.now) }
{
    (*cx, *cz)
}

/// The column that a cell is in.
pub(crate) fn place_of(cell: &Cell) -> Place
    ensures { result ≡ place_of cell.now.x cell.now.z }
{
    (column_number(cell.x), column_number(cell.z))
}

/// The low 16 bits of the number of a state.
pub(crate) fn low_state(state: i32) -> u16
    ensures { result ≡ low_state state }
{
    state.rem_euclid(65536) as u16
}
