ghost use Rattle.std.specs.Prelude.{◌≡◌, ◌≤◌, ◌↔◌, IsTrue};
ghost use lib.IntN.{pos, neg_ℤ, ◌+ℤ◌, ◌-ℤ◌, ◌*ℤ◌};
ghost use lib.Signed.{◌≤ℤ◌, ◌<ℤ◌};
ghost use Rattle.mc_view.specs.declared.view_set.TheConstants.{MIDDLE_BORDER};
ghost use Rattle.mc_view.specs.Sets.{has};
ghost use Rattle.mc_view.specs.Views.{column_of_spot};

use crate::view_set::ViewSet;
use mc_fields::Spot;
use std::marker::Model;

/// How long a column is on each axis, in 1/32 blocks.
const COLUMN_SIDE: i32 = 512;

/// The places of a view's columns, by bounds that are worked out once: a place is then found to be
/// in the view by comparisons alone. Contracts see it as the view.
#[derive(Drop)]
pub struct Area {
    view: ViewSet,
    /// The first place to the east and the first past the last, in 1/32 blocks.
    west: i32,
    east: i32,
    /// And to the south.
    north: i32,
    south: i32,
}

impl Model for Area {
    ghost use Rattle.mc_view.specs.declared.view_set.ViewSet.{ViewSet};
    ghost use Rattle.mc_view.specs.Areas.{IsBound};

    ghost Value = { ViewSet };

    ghost view = { λ area. area.view };

    ghost invariant = { λ area. IsBound area.view.cx area.view.d area.west area.east
        × IsBound area.view.cz area.view.d area.north area.south };
}

impl Area {
    /// The places of a view's columns.
    pub fn of(view: &ViewSet) -> Area
        ensures { result ≡ view.now }
    {
        let (west, east) = bounds_of(view.cx, view.d);
        let (north, south) = bounds_of(view.cz, view.d);
        Area {
            view: *view,
            west,
            east,
            north,
            south,
        }
    }

    /// Whether a place stands in one of the view's columns.
    #[inline]
    pub fn has(&self, spot: &Spot) -> bool
        ensures { result ≡ has self.now (column_of_spot spot.now) }
    {
        is_between(self.west, spot.x, self.east) && is_between(self.north, spot.z, self.south)
    }
}

/// The first place of the columns that are at most so many off a middle, along one axis, and the
/// first place past them.
fn bounds_of(middle: i32, d: u8) -> (i32, i32)
    requires low { neg_ℤ (pos MIDDLE_BORDER) ≤ℤ middle }
    requires high { middle ≤ℤ pos MIDDLE_BORDER }
    requires near { d ≤ 8 }
    ensures first { result.0 ≡ (middle -ℤ pos d) *ℤ pos 512 }
    ensures past { result.1 ≡ (middle +ℤ pos d +ℤ pos 1) *ℤ pos 512 }
{
    let d = i32::from(d);
    ((middle - d) * COLUMN_SIDE, (middle + d + 1) * COLUMN_SIDE)
}

/// Whether a number is at least one and below another.
fn is_between(low: i32, x: i32, past: i32) -> bool
    ensures { IsTrue result ↔ (low ≤ℤ x) × (x <ℤ past) }
{
    low <= x && x < past
}
