ghost use Rattle.std.specs.Prelude.{◌≡◌};

use crate::mind::{Mind, Move};
use std::marker::Model;
use std::vec::IntoIter;

/// No step.
const STAY: Move = Move {
    dx: 0,
    dy: 0,
    dz: 0,
};

/// A mind whose plan is a list of moves, as which contracts see it.
#[derive(Drop)]
pub struct Planned {
    moves: IntoIter<Move>,
}

impl Model for Planned {
    ghost use Rattle.std.specs.Prelude.{List};
    ghost use Rattle.std.specs.Vec.Iter.{into_iter_items};
    ghost use Rattle.mc_entities.specs.declared.mind.Move.{Move};

    ghost Value = { List Move };

    ghost view = { λ mind. into_iter_items mind.moves };
}

impl Planned {
    /// A mind that makes these moves, one after another, and then stays.
    pub fn new(moves: Vec<Move>) -> Planned
        ensures { result ≡ moves.items }
    {
        Planned {
            moves: moves.into_iter(),
        }
    }
}

impl Mind for Planned {
    ghost plan = { λ moves. moves };

    fn step(&mut self) -> Move {
        self.moves.next().unwrap_or(STAY)
    }
}
