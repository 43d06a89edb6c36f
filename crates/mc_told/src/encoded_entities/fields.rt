//! What is kept of encoded entities, field by field: a new one is named here before the crate is
//! built again.

use super::EncodedEntities;
use crate::encoded_moves::EncodedMoves;
use crate::spawned::Spawned;
use mc_model::every_field;

/// Names every field of encoded entities.
fn name_fields(encoded: &EncodedEntities) {
    every_field!(encoded: EncodedEntities {
        moves: EncodedMoves,
        spawns: Vec<(i32, Spawned)>,
    });
}

const _: fn(&EncodedEntities) = name_fields;
