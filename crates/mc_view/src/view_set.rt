ghost use Rattle.std.specs.Prelude.{◌≡◌, ◌≤◌};
ghost use lib.IntN.{pos, neg_ℤ};
ghost use lib.Signed.{◌≤ℤ◌};
ghost use Rattle.mc_view.specs.declared.view_set.TheConstants.{MIDDLE_BORDER};

use crate::columns::Columns;

/// How far from the middle of the world that of a view is at most, along each axis, in columns.
pub const MIDDLE_BORDER: u32 = 1_875_000;

/// The columns around a middle: those that are at most `d` columns off it on each axis.
#[derive(Clone, Copy, Debug, PartialEq, Eq)]
pub struct ViewSet {
    /// The middle, in columns to the east.
    pub cx: i32,
    /// The middle, in columns to the south.
    pub cz: i32,
    /// How far it reaches, in columns.
    pub d: u8,
    ghost in_range: { (neg_ℤ (pos MIDDLE_BORDER) ≤ℤ cx) × (cx ≤ℤ pos MIDDLE_BORDER) ×
        (neg_ℤ (pos MIDDLE_BORDER) ≤ℤ cz) × (cz ≤ℤ pos MIDDLE_BORDER) × (d ≤ 8) },
}

impl ViewSet {
    ghost use Rattle.mc_view.specs.Sets.{has, all_of, lacking};

    /// The set around a middle.
    pub fn of(cx: i32, cz: i32, d: u8) -> ViewSet
        requires cx_low { neg_ℤ (pos MIDDLE_BORDER) ≤ℤ cx }
        requires cx_high { cx ≤ℤ pos MIDDLE_BORDER }
        requires cz_low { neg_ℤ (pos MIDDLE_BORDER) ≤ℤ cz }
        requires cz_high { cz ≤ℤ pos MIDDLE_BORDER }
        requires near { d ≤ 8 }
        ensures cx { result.cx ≡ cx }
        ensures cz { result.cz ≡ cz }
        ensures d { result.d ≡ d }
    {
        ViewSet { cx, cz, d }
    }

    /// Whether a column is in the set.
    pub fn has(&self, cx: i32, cz: i32) -> bool
        ensures { result ≡ has self.now (cx, cz) }
    {
        self.cx.abs_diff(cx) <= u32::from(self.d) && self.cz.abs_diff(cz) <= u32::from(self.d)
    }

    /// All columns of this set, in rising order.
    pub fn all(&self) -> Columns
        ensures { result ≡ all_of self.now }
    {
        Columns::all(self)
    }

    /// The columns of this set that `old` lacks, in rising order.
    pub fn entered(&self, old: &ViewSet) -> Columns
        ensures { result ≡ lacking self.now old.now }
    {
        Columns::new(self, old)
    }

    /// The columns of `old` that this set lacks, in rising order.
    pub fn left(&self, old: &ViewSet) -> Columns
        ensures { result ≡ lacking old.now self.now }
    {
        Columns::new(old, self)
    }
}
