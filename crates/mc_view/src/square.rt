ghost use Rattle.std.specs.Prelude.{◌≡◌, ◌≤◌, []};
ghost use Rattle.std.specs.Iterator.{YieldsFirst};
ghost use lib.IntN.{pos, negsuc, ◌+ℤ◌, ◌-ℤ◌};
ghost use lib.Signed.{◌≤ℤ◌};
ghost use Rattle.mc_view.specs.Sets.{all_of};

use crate::ViewSet;
use std::marker::Model;

/// The first column of a square.
#[derive(Clone, Copy)]
struct Corner {
    west: i32,
    north: i32,
}

/// The first column of a view.
fn corner_of(view: &ViewSet) -> Corner
    ensures west { result.west ≡ view.now.cx -ℤ pos view.now.d }
    ensures north { result.north ≡ view.now.cz -ℤ pos view.now.d }
    ensures west_low { negsuc 1899999 ≤ℤ result.west }
    ensures west_high { result.west ≤ℤ pos 1900000 }
    ensures north_low { negsuc 1899999 ≤ℤ result.north }
    ensures north_high { result.north ≤ℤ pos 1900000 }
{
    let d = i32::from(view.d);
    Corner {
        west: view.cx - d,
        north: view.cz - d,
    }
}

/// The columns of a square, one after another: row by row to the east, in a row to the south.
#[derive(Drop)]
pub struct Square {
    corner: Corner,
    side: u32,
    /// The row that is gone through, and how many come after it.
    row: u32,
    left: u32,
    /// How many columns of the row are behind.
    at: u32,
}

impl Model for Square {
    ghost use Rattle.std.specs.Prelude.{List};
    ghost use Rattle.mc_column.specs.Places.{Place};
    ghost use Rattle.mc_view.specs.Squares.{IsSquare, rest_of};

    ghost Value = { List Place };

    ghost view = { λ s. rest_of s.corner.west s.corner.north s.side s.row s.left s.at };

    ghost invariant = { λ s. IsSquare s.corner.west s.corner.north s.side s.row s.left s.at };
}

impl Square {
    /// All columns of a view.
    pub fn of(view: &ViewSet) -> Square
        ensures { result ≡ all_of view.now }
    {
        Square {
            corner: corner_of(view),
            side: u32::from(view.d) * 2 + 1,
            row: 0,
            left: u32::from(view.d) * 2,
            at: 0,
        }
    }

    /// No column.
    pub fn empty() -> Square
        ensures { result ≡ [] }
    {
        Square {
            corner: Corner { west: 0, north: 0 },
            side: 1,
            row: 0,
            left: 0,
            at: 1,
        }
    }

    /// The next column, None where all were given.
    pub fn next(&mut self) -> Option<(i32, i32)>
        ensures { YieldsFirst (λ columns. columns) self.old result self.new }
    {
        if self.at == self.side {
            return None;
        }
        let column = column_at(&self.corner, self.row, self.at);
        if self.at + 1 < self.side {
            self.at += 1;
            return Some(column);
        }
        if self.left == 0 {
            self.at += 1;
            return Some(column);
        }
        self.row += 1;
        self.left -= 1;
        self.at = 0;
        Some(column)
    }
}

/// The column so far to the east and to the south of a corner.
fn column_at(corner: &Corner, row: u32, at: u32) -> (i32, i32)
    requires west { corner.now.west ≤ℤ pos 1900000 }
    requires north { corner.now.north ≤ℤ pos 1900000 }
    requires row { row ≤ 17 }
    requires at { at ≤ 17 }
    ensures { result ≡ (corner.now.west +ℤ pos row, corner.now.north +ℤ pos at) }
{
    (corner.west + row as i32, corner.north + at as i32)
}
