//! What is kept of a ground, field by field. This code refuses a copy of cells beside it, which no
//! contract does: a new field is named here before the crate is built again.

use super::Ground;
use mc_land::{Land, Terrain};
use mc_model::every_field;

/// Names every field of a ground.
fn name_fields(whole: &Ground) {
    every_field!(whole: Ground {
        terrain: Terrain,
        land: Land,
    });
}

const _: fn(&Ground) = name_fields;
