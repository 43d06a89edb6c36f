ghost use Rattle.std.specs.Prelude.{◌≡◌, ◌≤◌};
ghost use Rattle.mc_model.specs.Game.{AreSettings};

mod fields;

use std::marker::Model;

/// How many players may be in play, 1 to 50, and how large a view may be, 2 to 8 columns on each
/// side of a player's own.
#[derive(Drop)]
pub struct Limits {
    players: u32,
    cap: u8,
}

impl Model for Limits {
    ghost use Rattle.mc_model.specs.Game.{AreSettings};
    ghost use Rattle.mc_play.specs.Kept.{LimitsValue};

    ghost Value = { LimitsValue };

    ghost view = { λ limits. record { players = limits.players; cap = limits.cap } };

    ghost invariant = { λ limits. AreSettings limits.players limits.cap };
}

impl Limits {
    /// So many players, and views of at most this size.
    pub fn new(players: u32, cap: u8) -> Limits
        requires { AreSettings players cap }
        ensures { result ≡ record { players = players; cap = cap } }
    {
        Limits { players, cap }
    }

    /// How many players may be in play.
    pub fn players(&self) -> u32
        ensures is { result ≡ self.now.players }
        ensures few { result ≤ 50 }
    {
        self.players
    }

    /// How large a view may be.
    pub fn cap(&self) -> u8
        ensures is { result ≡ self.now.cap }
        ensures few { result ≤ 8 }
    {
        self.cap
    }
}
