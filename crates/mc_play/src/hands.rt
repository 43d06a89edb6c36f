//! Piles in hands.

ghost use Rattle.std.specs.Prelude.{◌≡◌};
ghost use Rattle.mc_slots.specs.Pile.{IsPile};
ghost use Rattle.mc_model.specs.Hands.{place_of_hotbar};
ghost use Rattle.mc_model.specs.Things.{in_hand, with_hand};

use mc_slots::Pile;
use mc_windows::{MAIN_PILES, Pack};

/// A place of the hotbar, 0 to 8; None of another number.
pub fn place_of_hotbar(place: i16) -> Option<u8>
    ensures { result ≡ place_of_hotbar place }
{
    if 0 <= place && place < 9 {
        return Some(place as u8);
    }
    None
}

/// The pile at a place of the hotbar.
pub fn in_hand(pack: &Pack, hand: u8) -> Pile
    ensures is { result ≡ in_hand pack.now hand }
    ensures range { IsPile result }
{
    pack.pile(MAIN_PILES + usize::from(hand))
}

/// A pack with another pile at a place of the hotbar; the same, where it has no such place.
pub fn with_hand(pack: Pack, hand: u8, pile: Pile) -> Pack
    requires { IsPile pile }
    ensures { result ≡ with_hand pile hand pack }
{
    let mut pack = pack;
    let place = MAIN_PILES + usize::from(hand);
    if place < pack.slots.len() {
        pack.put(place, pile);
    }
    pack
}
