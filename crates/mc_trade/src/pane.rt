//! The window that a client is to be shown, by rows, and whether it is shown that.

use crate::pile::{NOTHING, Pile, pile_of};
use crate::tally::{Tally, count};
use mc_packets::Down;
use mc_replica::SeenWindow;
use mc_slots::Slot;

/// How many slots a chest has, and how many it has with a pack.
const CHEST: usize = 27;

const BOTH: usize = 63;

/// The first slot of the pack in window 0, and how many slots that has.
const OWN_FIRST: usize = 9;

const OWN: usize = 45;

/// The place of the cursor.
const CURSOR: usize = 63;

/// How many places there are.
const PLACES: usize = 64;

/// The number of the chest's window, 0 where none is shown, and what lies in its slots, in those of
/// the pack behind them, and on the cursor. Where no chest is shown the first 27 have nothing.
#[derive(Clone, Copy)]
pub struct Pane {
    window: u8,
    piles: [Pile; PLACES],
}

impl Pane {
    /// No window of a chest, and nothing anywhere.
    pub fn new() -> Pane {
        Pane {
            window: 0,
            piles: [NOTHING; PLACES],
        }
    }

    /// Another window is shown, of whose chest nothing is known.
    pub fn see(&mut self, window: u8) {
        self.window = window;
        for pile in self.piles.iter_mut().take(CHEST) {
            *pile = NOTHING;
        }
    }

    /// Something else lies at a place. Tells whether that is one.
    pub fn put(&mut self, place: usize, pile: Pile) -> bool {
        match self.piles.get_mut(place) {
            Some(old) => {
                *old = pile;
                true
            }
            None => false,
        }
    }

    /// The first place at which a client is shown something else, the one behind all for the
    /// window.
    pub fn differs(&self, shown: &SeenWindow) -> Option<usize> {
        if self.window != shown.number() {
            return Some(PLACES);
        }
        for (place, pile) in self.piles.iter().enumerate() {
            if pile_of(slot_at(shown, place)) != *pile {
                return Some(place);
            }
        }
        None
    }
}

/// What a client is shown at a place.
fn slot_at(shown: &SeenWindow, place: usize) -> &Slot {
    if place < CHEST {
        return shown.chest(place);
    }
    if place < CURSOR {
        return shown.pack(place - CHEST);
    }
    shown.cursor()
}

/// Counts a packet, where it is about windows; tells whether it is about the one that is shown.
pub fn fits(packet: &Down, shown: &SeenWindow, tally: &mut Tally) -> bool {
    match packet {
        Down::OpenWindow { kind, slots, .. } => {
            count(&mut tally.opened);
            kind.as_str() == "minecraft:chest" && usize::from(*slots) == CHEST
        }
        Down::CloseWindow(window) => {
            count(&mut tally.closed);
            *window == shown.number()
        }
        Down::SetSlot(window, slot, _) => {
            count(&mut tally.slots);
            is_slot(*window, *slot, shown)
        }
        Down::WindowItems(window, items) => {
            count(&mut tally.windows);
            *window == shown.number() && are_slots(items.as_slice(), *window)
        }
        _ => true,
    }
}

/// Whether a slot is the cursor, or one of the window that is shown in which something can lie.
fn is_slot(window: i8, slot: i16, shown: &SeenWindow) -> bool {
    if window == -1 && slot == -1 {
        return true;
    }
    if window == 0 && slot < OWN_FIRST as i16 {
        return false;
    }
    window.cast_unsigned() == shown.number() && shown.slot(slot).is_some()
}

/// Whether these are as many slots as a window has; the first of window 0 have nothing.
fn are_slots(items: &[Slot], window: u8) -> bool {
    if window != 0 {
        return items.len() == BOTH;
    }
    items.len() == OWN && are_empty(items, OWN_FIRST)
}

/// Whether the first slots have nothing.
fn are_empty(items: &[Slot], count: usize) -> bool {
    for item in items.iter().take(count) {
        if pile_of(item) != NOTHING {
            return false;
        }
    }
    true
}
