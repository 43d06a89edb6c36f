ghost use Rattle.std.specs.Prelude.{◌≡◌};
ghost use Rattle.mc_windows.specs.Moves.{same_place};

/// Where a pile lies while a click is worked out.
#[derive(Clone, Copy)]
pub(crate) enum Place {
    /// On the cursor.
    Cursor,
    /// Outside the window.
    Floor,
    /// In the chest, at 0 to 26.
    Chested(usize),
    /// In the pack, at 0 to 35.
    Packed(usize),
}

impl Place {
    /// Whether two places are the same.
    pub(crate) fn is(self, other: Place) -> bool
        ensures { result ≡ same_place self other }
    {
        match (self, other) {
            (Place::Cursor, Place::Cursor) => true,
            (Place::Floor, Place::Floor) => true,
            (Place::Chested(i), Place::Chested(j)) => i == j,
            (Place::Packed(i), Place::Packed(j)) => i == j,
            _ => false,
        }
    }
}
