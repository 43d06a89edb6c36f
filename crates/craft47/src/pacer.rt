ghost use Rattle.std.specs.Prelude.{◌≡◌};
ghost use Rattle.craft47.specs.Pacing.{left_of, rounds};

use mc_entities::{Mind, Move};

/// An eighth of a block to the east.
const EAST: Move = Move {
    dx: 4,
    dy: 0,
    dz: 0,
};

/// An eighth of a block to the west.
const WEST: Move = Move {
    dx: -4,
    dy: 0,
    dz: 0,
};

/// No step.
const STAY: Move = Move {
    dx: 0,
    dy: 0,
    dz: 0,
};

/// How many moves a mob goes one way.
const WAY: u8 = 20;

/// How many times a mob goes there and back.
const ROUNDS: u8 = 50;

/// A mind that goes to the east and back for so many rounds, and then stands.
#[derive(Drop)]
pub struct Pacer {
    /// How many moves to the east are left of a round that it began.
    east: u8,
    /// How many to the west.
    west: u8,
    /// How many rounds are left after that.
    rounds: u8,
}

impl Pacer {
    /// Makes one that has all its rounds before it.
    pub fn new() -> Pacer
        ensures { left_of result ≡ rounds ROUNDS }
    {
        Pacer {
            east: 0,
            west: 0,
            rounds: ROUNDS,
        }
    }
}

impl Mind for Pacer {
    ghost use Rattle.craft47.specs.Pacing.{left_of};

    ghost plan = { λ pacer. left_of pacer };

    fn step(&mut self) -> Move {
        if self.east == 0 && self.west == 0 && self.rounds > 0 {
            self.rounds -= 1;
            self.east = WAY;
            self.west = WAY;
        }
        if self.east > 0 {
            self.east -= 1;
            return EAST;
        }
        if self.west > 0 {
            self.west -= 1;
            return WEST;
        }
        STAY
    }
}
