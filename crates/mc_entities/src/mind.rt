ghost use Rattle.std.specs.Prelude.{◌≡◌, List, map};
ghost use Rattle.mc_entities.specs.Plans.{asked_at, first_move, move_at, rest_of};

/// A step on each axis, in 1/32 blocks.
#[derive(Clone, Copy, Debug, PartialEq, Eq)]
pub struct Move {
    /// To the east.
    pub dx: i8,
    /// Up.
    pub dy: i8,
    /// To the south.
    pub dz: i8,
}

/// What moves a mob. Its meaning is its plan, a finite list of moves.
pub trait Mind: Drop {
    ghost use Rattle.mc_entities.specs.declared.mind.Move.{Move};

    // The moves that are still to be made.
    ghost plan: { Self → List Move };

    /// Answers the first move of the plan, and keeps the rest. With a spent plan it is no move.
    fn step(&mut self) -> Move
        ensures answer { result ≡ first_move (plan self.old) }
        ensures rest { plan self.new ≡ rest_of (plan self.old) };
}

// Minds of several types stand in one list by their boxes.
impl Mind for Box<dyn Mind> {
    ghost plan = { λ b. (Mind-box b).plan b.value };

    fn step(&mut self) -> Move {
        (**self).step()
    }
}

/// Asks a mind for its next move.
fn step_of<M: Mind>(mind: &mut M) -> Move
    ensures answer { result ≡ first_move (M.plan mind.old) }
    ensures rest { M.plan mind.new ≡ rest_of (M.plan mind.old) }
{
    mind.step()
}

/// Asks the mind at a place for its next move; no move where there is none.
pub(crate) fn ask<M: Mind>(minds: &mut [M], at: usize) -> Move
    ensures answer { result ≡ move_at (map (λ mind. M.plan mind) minds.old) at }
    ensures rest { map (λ mind. M.plan mind) minds.new ≡
        asked_at at (map (λ mind. M.plan mind) minds.old) }
{
    if minds.len() <= at {
        return Move {
            dx: 0,
            dy: 0,
            dz: 0,
        };
    }
    step_of(&mut minds[at])
}
