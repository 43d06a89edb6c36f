ghost use Rattle.std.specs.Prelude.{◌≡◌};
ghost use Rattle.mc_model.specs.Notes.{no_notes};

use mc_fields::{Cell, Listed};
use std::alloc::Global;

/// The answer to a click in a window.
#[derive(Clone, Copy)]
pub struct Answered {
    /// The number of the window that was clicked in.
    pub window: u8,
    /// The number of the click.
    pub number: i16,
    /// Whether the click was accepted.
    pub accepted: bool,
}

/// What is due to a client at the next tick beside the difference.
#[derive(Drop)]
pub struct Notes {
    /// The answers to its clicks, in the order in which they were noted.
    pub confirms: Listed<Answered>,
    /// The cells whose states it is to be sent, in the order in which they were noted.
    pub cells: Listed<Cell>,
    /// Whether it is to be sent its player's place.
    pub placing: bool,
    /// Whether it is to be sent the window again that it is shown.
    pub resend: bool,
}

impl Notes {
    /// Nothing is noted. It takes no memory.
    pub fn new(alloc: Global) -> Notes
        ensures { result ≡ no_notes }
    {
        Notes {
            confirms: Listed::new(alloc),
            cells: Listed::new(alloc),
            placing: false,
            resend: false,
        }
    }
}
