//! What is kept of the limits of a game, field by field. This code refuses a copy of cells beside
//! it, which no contract does: a new field is named here before the crate is built again.

use super::Limits;
use mc_model::every_field;

/// Names every field of the limits of a game.
fn name_fields(whole: &Limits) {
    every_field!(whole: Limits {
        players: u32,
        cap: u8,
    });
}

const _: fn(&Limits) = name_fields;
