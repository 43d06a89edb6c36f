//! The mobs of the walk: what each is to do, by the first rows of the table, and where it is to be at
//! a tick.

use crate::fault::Fault;
use mc_bytes::NoMemory;
use mc_entities::{Move, Planned};
use mc_fields::Spot;
use mc_rows::Words;
use std::alloc::Global;

/// How many mobs there are. Their numbers are those from 1 on.
pub const MOBS: u32 = 3;

/// Puts moves at the end, so many alike.
fn push_leg(words: &mut Words<'_>, moves: &mut Vec<Move>) -> Result<(), NoMemory> {
    let count = words.number::<u16>();
    let by = Move {
        dx: words.number(),
        dy: words.number(),
        dz: words.number(),
    };
    for _ in 0..count {
        moves.push(by)?;
    }
    Ok(())
}

/// The mind of a row, which has legs of so many moves alike: `N DX DY DZ ..`.
pub fn mind_of(alloc: Global, row: &str) -> Result<Planned, Fault> {
    let mut words = Words::new(alloc, row);
    let mut moves = Vec::new(alloc);
    for _ in 0..10_000 {
        if words.is_more() {
            push_leg(&mut words, &mut moves)?;
        }
    }
    Ok(Planned::new(moves))
}

/// Where the next words say that a mob is. It looks straight on.
pub fn spot_in(words: &mut Words<'_>) -> Spot {
    Spot {
        x: words.number(),
        y: words.number(),
        z: words.number(),
        yaw: 0,
        pitch: 0,
    }
}
