ghost use Rattle.std.specs.Prelude.{◌≡◌};
ghost use Rattle.mc_slots.specs.Pile.{IsPile};

use mc_slots::Pile;
use std::marker::Model;

/// What lies outside the window while a click is worked out: what it drops, or what is picked up.
/// Contracts see it as the pile.
#[derive(Clone, Copy)]
pub(crate) struct Floor {
    pile: Pile,
}

impl Model for Floor {
    ghost use Rattle.mc_slots.specs.declared.pile.Pile.{Pile};

    ghost Value = { Pile };

    ghost use Rattle.mc_slots.specs.Pile.{IsPile};

    ghost view = { λ floor. floor.pile };

    ghost invariant = { λ floor. IsPile floor.pile };

    ghost inverse = { λ pile. record { pile = pile } };
}

impl Floor {
    /// Lays a pile on an empty floor.
    pub(crate) fn with(pile: Pile) -> Floor
        requires { IsPile pile }
        ensures { result ≡ pile }
    {
        Floor { pile }
    }

    /// What lies there.
    pub(crate) fn pile(&self) -> Pile
        ensures pile { result ≡ self.now }
        ensures range { IsPile result }
    {
        self.pile
    }
}
