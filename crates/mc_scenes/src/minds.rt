//! Minds: `minds MIND .. run ARGUMENT .. < TEXT` and `minds MIND .. server PLAYERS CAP TERRAIN STEP ..`
//! hand minds to the call that follows, and answer how many of them were dropped in the end, too. A
//! mind is the word `mind` and its legs: `go N DX DY DZ`, so many moves alike, in 1/32 of a block.

use crate::commands::run_with;
use crate::servers::serve;
use mc_bytes::NoMemory;
use mc_entities::{Mind, Move, Planned};
use mc_rows::{Answer, Words};
use std::alloc::Global;
use std::cell::Cell;
use std::rc::Rc;

/// A mind with a plan, which counts how many such minds were dropped.
pub struct Counted {
    mind: Planned,
    dropped: Rc<Cell<u32>>,
}

impl Drop for Counted {
    fn drop(self) {
        let Self { mind, dropped } = self;
        drop(mind);
        dropped.set(dropped.get().saturating_add(1));
    }
}

impl Mind for Counted {
    ghost plan = { λ counted. counted.mind };

    fn step(&mut self) -> Move {
        self.mind.step()
    }
}

/// The moves of the next words, so many alike.
fn push_leg(words: &mut Words<'_>, moves: &mut Vec<Move>) -> Result<(), NoMemory> {
    let count = words.number::<u16>();
    let by = Move {
        dx: words.number(),
        dy: words.number(),
        dz: words.number(),
    };
    for _ in 0..count {
        moves.push(by)?;
    }
    Ok(())
}

/// The plan of the next words.
fn plan_in(words: &mut Words<'_>) -> Result<Vec<Move>, NoMemory> {
    let mut moves = Vec::new(words.alloc);
    for _ in 0..100 {
        if words.is_next("go") {
            push_leg(words, &mut moves)?;
        }
    }
    Ok(moves)
}

/// The mind of the next words. None where there is no memory.
fn mind_in(words: &mut Words<'_>, dropped: &Rc<Cell<u32>>) -> Option<Counted> {
    let mind = Planned::new(plan_in(words).ok()?);
    let dropped = dropped.clone().ok()?;
    Some(Counted { mind, dropped })
}

/// Makes minds, answers the call behind them with these minds, and puts how many were dropped.
pub fn minds(words: &mut Words<'_>, answer: &mut Answer) {
    let Ok(dropped) = Rc::new(words.alloc, Cell::new(0)) else {
        return answer.lose();
    };
    let mut minds = Vec::new(words.alloc);
    for _ in 0..100 {
        if words.is_next("mind") {
            match mind_in(words, &dropped) {
                Some(mind) => answer.needs(minds.push(mind)),
                None => answer.lose(),
            }
        }
    }
    if words.is_next("run") {
        run_with(minds, words, answer);
    } else {
        words.skip("server");
        serve(minds, words, answer);
    }
    put_dropped(&dropped, answer);
}

/// Puts how many minds were dropped.
fn put_dropped(dropped: &Cell<u32>, answer: &mut Answer) {
    answer.comma();
    answer.word("dropped");
    answer.word(dropped.get());
}
