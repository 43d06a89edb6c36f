ghost use Rattle.std.specs.Prelude.{◌≡◌, ◌<◌, ◌^◌};
ghost use lib.IntN.{pos};
ghost use lib.Signed.{◌≤ℤ◌};

use std::marker::Model;

/// The number of a player's entity, at most 2,147,483,647, as packets can carry it.
#[derive(Clone, Copy)]
pub struct Eid {
    number: u32,
}

impl Model for Eid {
    ghost use Rattle.std.specs.Prelude.{ℕ, ◌<◌, ◌^◌};

    ghost Value = { ℕ };

    ghost view = { λ eid. eid.number };

    ghost invariant = { λ eid. eid.number < 2 ^ 31 };

    ghost inverse = { λ number. record { number = number } };
}

impl Eid {
    /// The number, of an entity as the list of entities has it.
    pub fn of(number: i32) -> Eid
        requires { pos 0 ≤ℤ number }
        ensures { pos result ≡ number }
    {
        Eid {
            number: number as u32,
        }
    }

    /// The number as packets and the list of entities have it.
    pub fn number(&self) -> i32
        ensures { result ≡ pos self.now }
    {
        // It is below 2 ^ 31, says the invariant.
        let Eid { number } = *self;
        number as i32
    }
}
