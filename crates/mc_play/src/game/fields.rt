//! What is kept of a game, field by field. This code refuses a copy of cells beside it, which no
//! contract does: a new field is named here before the crate is built again.

use super::Game;
use crate::entities::Entities;
use crate::ground::Ground;
use crate::limits::Limits;
use crate::{Lines, Packs, Players};
use mc_model::every_field;
use std::alloc::Global;

/// Names every field of a game.
fn name_fields(game: &Game) {
    every_field!(game: Game {
        alloc: Global,
        limits: Limits,
        age: u64,
        ground: Ground,
        entities: Entities,
        packs: Packs,
        lines: Lines,
        players: Players,
    });
}

const _: fn(&Game) = name_fields;
