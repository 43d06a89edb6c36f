ghost use Rattle.std.specs.Prelude.{◌≡◌, ◌<◌, slice_set};
ghost use Rattle.mc_slots.specs.Pile.{IsPile};
ghost use Rattle.mc_slots.specs.Chest.{IsChest, chest_size, empty_chest, pile_at};

use crate::pile::Pile;
use std::marker::Model;

/// How many piles a chest has.
pub const CHEST_PILES: usize = 27;

/// The 27 piles of a chest. Contracts see it as their list.
#[derive(Clone, Copy)]
pub struct Chest {
    piles: [Pile; CHEST_PILES],
}

impl Model for Chest {
    ghost use Rattle.std.specs.Prelude.{List};
    ghost use Rattle.mc_slots.specs.declared.pile.Pile.{Pile};
    ghost use Rattle.mc_slots.specs.Chest.{IsChest};

    ghost Value = { List Pile };

    ghost view = { λ chest. chest.piles };

    ghost invariant = { λ chest. IsChest chest.piles };

    ghost inverse = { λ piles. record { piles = piles } };
}

impl Chest {
    /// A chest with nothing in it.
    pub fn new() -> Chest
        ensures value { result ≡ empty_chest }
        ensures chest { IsChest result }
    {
        Chest {
            piles: [Pile::Empty; CHEST_PILES],
        }
    }

    /// The 27 piles in their order.
    pub fn as_slice(&self) -> &[Pile]
        ensures piles { result.now ≡ self.now }
        ensures chest { IsChest self.now }
    {
        &self.piles
    }

    /// The pile at a place from 0 to 26.
    pub fn get(&self, i: usize) -> Pile
        requires { i < chest_size }
        ensures pile { result ≡ pile_at self.now i }
        ensures range { IsPile result }
        ensures chest { IsChest self.now }
    {
        self.piles[i]
    }

    /// Puts a pile at a place from 0 to 26, in the place of the one that was there.
    pub fn set(&mut self, i: usize, pile: Pile)
        requires place { i < chest_size }
        requires range { IsPile pile }
        ensures piles { self.new ≡ slice_set self.old i pile }
        ensures chest { IsChest self.new }
    {
        self.piles[i] = pile;
    }
}
