ghost use Rattle.std.specs.Prelude.{◌≡◌, ◌<◌};
ghost use Rattle.mc_windows.specs.Clicks.{picked_up, place_in, places};

use crate::place::Place;
use crate::{MAIN_PILES, PACK_PILES};
use mc_slots::CHEST_PILES;

/// The places to which a pile may go by itself, in their order.
#[derive(Clone, Copy)]
pub(crate) enum Order {
    /// From the last slot of the hotbar down to the first of the main part.
    ToPlayer,
    /// From the first slot of the chest up.
    ToChest,
    /// From the first slot of the hotbar up.
    ToHotbar,
    /// From the first slot of the main part up.
    ToMain,
    /// The hotbar up, and then the main part up.
    PickedUp,
}

impl Order {
    /// How many places there are.
    pub(crate) fn places(self) -> usize
        ensures { result ≡ places self }
    {
        match self {
            Order::ToPlayer | Order::PickedUp => PACK_PILES,
            Order::ToChest => CHEST_PILES,
            Order::ToMain => MAIN_PILES,
            Order::ToHotbar => 9,
        }
    }

    /// The place that has `k` places before it.
    pub(crate) fn place(self, k: usize) -> Place
        requires { k < 36 }
        ensures { result ≡ place_in self k }
    {
        match self {
            Order::ToPlayer => Place::Packed(35 - k),
            Order::ToChest => Place::Chested(k),
            Order::ToHotbar => Place::Packed(MAIN_PILES + k),
            Order::ToMain => Place::Packed(k),
            Order::PickedUp => Place::Packed(picked_up(k)),
        }
    }
}

/// The slot of a pack that has `k` slots before it where something is picked up.
fn picked_up(k: usize) -> usize
    requires { k < 36 }
    ensures { result ≡ picked_up k }
{
    if k < 9 { MAIN_PILES + k } else { k - 9 }
}
