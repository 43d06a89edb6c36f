ghost use Rattle.std.specs.Prelude.{◌≡◌};
ghost use Rattle.std.specs.Iterator.{YieldsFirst, item_count};
ghost use Rattle.mc_view.specs.Sets.{all_of, is_within, lacking};

use crate::ViewSet;
use crate::square::Square;
use std::marker::Model;

/// The columns of one view that another lacks, or all of them, in rising order. They are not
/// stored.
#[derive(Drop)]
pub struct Columns {
    square: Square,
    other: Option<ViewSet>,
}

impl Model for Columns {
    ghost use Rattle.std.specs.Prelude.{List, not};
    ghost use Rattle.std.specs.List.{filter};
    ghost use Rattle.mc_column.specs.Places.{Place};
    ghost use Rattle.mc_view.specs.Sets.{is_within};

    ghost Value = { List Place };

    ghost view = { λ s. filter (λ (place : Place). not (is_within s.other place)) s.square };
}

impl Columns {
    /// Those of a view that another lacks. Nothing is gone through where both are the same.
    pub fn new(view: &ViewSet, other: &ViewSet) -> Columns
        ensures { result ≡ lacking view.now other.now }
    {
        if view == other {
            return Columns {
                square: Square::empty(),
                other: None,
            };
        }
        Columns {
            square: Square::of(view),
            other: Some(*other),
        }
    }

    /// All of a view.
    pub fn all(view: &ViewSet) -> Columns
        ensures { result ≡ all_of view.now }
    {
        Columns {
            square: Square::of(view),
            other: None,
        }
    }
}

impl Iterator for Columns {
    type Item = (i32, i32);

    ghost next_gives = { YieldsFirst (λ s. s) };

    ghost remaining = { item_count (λ s. s) };

    fn next(&mut self) -> Option<(i32, i32)> {
        while let Some((cx, cz)) = self.square.next() {
            if !is_within(&self.other, cx, cz) {
                return Some((cx, cz));
            }
        }
        None
    }
}

/// Whether there is a view and it has a column.
fn is_within(view: &Option<ViewSet>, cx: i32, cz: i32) -> bool
    ensures { result ≡ is_within view.now (cx, cz) }
{
    match view {
        Some(view) => view.has(cx, cz),
        None => false,
    }
}
