//! Minds: `minds N,N,.. STEP ..` makes minds, each of which goes to the east so many times, and
//! works on the folk that the rows before it left. A step is `tick`, `dropped` for how many of the
//! minds were dropped, or a call of the folk. At the end the minds are dropped.

use crate::entities;
use mc_entities::{Folk, Mind, Move};
use mc_rows::{Answer, Words};
use std::cell::Cell;
use std::rc::Rc;

/// Four blocks to the east, but for 1/32.
const EAST: Move = Move {
    dx: 127,
    dy: 0,
    dz: 0,
};

/// No step.
const STAY: Move = Move {
    dx: 0,
    dy: 0,
    dz: 0,
};

/// A mind that goes to the east so many times, and counts how many such minds were dropped.
struct Walker {
    left: u8,
    dropped: Rc<Cell<u32>>,
}

impl Drop for Walker {
    fn drop(self) {
        let Self { left: _, dropped } = self;
        dropped.set(dropped.get().saturating_add(1));
    }
}

impl Mind for Walker {
    ghost use Rattle.mc_vectors.specs.declared.minds.TheConstants.{EAST};
    ghost use Rattle.std.specs.Prelude.{replicate};

    ghost plan = { λ walker. replicate walker.left EAST };

    fn step(&mut self) -> Move {
        if self.left == 0 {
            return STAY;
        }
        self.left -= 1;
        EAST
    }
}

/// The mind that a text names by how many times it goes. None where it names none, or there is no
/// memory.
fn walker_of(dropped: &Rc<Cell<u32>>, text: &str) -> Option<Walker> {
    let left = text.parse::<u8>().ok()?;
    let dropped = dropped.clone().ok()?;
    Some(Walker { left, dropped })
}

/// Makes minds, goes on with the steps, and drops the minds.
/// Dear to prove: boxed minds that live through two loops.
pub fn minds(folk: &mut Folk, words: &mut Words<'_>, answer: &mut Answer) {
    let Ok(dropped) = Rc::new(words.alloc, Cell::new(0)) else {
        return answer.lose();
    };
    let mut minds: Vec<Box<dyn Mind>> = Vec::new(words.alloc);
    for text in words.word().split(',') {
        match walker_of(&dropped, text) {
            Some(walker) => match Box::new(words.alloc, walker) {
                Ok(mind) => answer.needs(minds.push(mind)),
                Err(_) => answer.lose(),
            },
            None => words.fail(),
        }
    }
    for _ in 0..64 {
        if words.is_next("tick") {
            folk.tick(&mut minds);
            put_tick(answer);
        } else if words.is_more() {
            step(folk, &dropped, words, answer);
        }
    }
    drop(minds);
    answer.comma();
    put_dropped(&dropped, answer);
}

/// Says how many minds were dropped, or makes a call of the folk.
fn step(folk: &mut Folk, dropped: &Cell<u32>, words: &mut Words<'_>, answer: &mut Answer) {
    answer.comma();
    if words.is_next("dropped") {
        put_dropped(dropped, answer);
    } else {
        entities::folk(folk, words, answer);
    }
}

/// Puts that the minds were asked.
fn put_tick(answer: &mut Answer) {
    answer.comma();
    answer.word("ticked");
}

/// Puts how many minds were dropped.
fn put_dropped(dropped: &Cell<u32>, answer: &mut Answer) {
    answer.word("dropped");
    answer.word(dropped.get());
}
