//! A mind of one's own.

use mc_entities::{Mind, Move};

/// Half a block to the east.
const EAST: Move = Move {
    dx: 16,
    dy: 0,
    dz: 0,
};

/// Half a block to the west.
const WEST: Move = Move {
    dx: -16,
    dy: 0,
    dz: 0,
};

/// No step.
const STAY: Move = Move {
    dx: 0,
    dy: 0,
    dz: 0,
};

/// A mind that goes to the east so many times, then to the west so many times, and then stays.
#[derive(Drop)]
pub struct Patrol {
    /// How often it is still to go to the east.
    pub there: u8,
    /// How often it is to go to the west then.
    pub back: u8,
}

impl Mind for Patrol {
    ghost use Rattle.std.specs.Prelude.{◌++◌, replicate};
    ghost use Rattle.example_mind.specs.declared.patrol.TheConstants.{EAST, WEST};

    // All that it is still to do: the moves of a mob are this list, whatever the code looks like.
    ghost plan = { λ patrol. replicate patrol.there EAST ++ replicate patrol.back WEST };

    fn step(&mut self) -> Move {
        if self.there > 0 {
            self.there -= 1;
            return EAST;
        }
        if self.back > 0 {
            self.back -= 1;
            return WEST;
        }
        STAY
    }
}
