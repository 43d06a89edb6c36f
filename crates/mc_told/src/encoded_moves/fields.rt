//! What is kept of encoded moves, field by field: a new one is named here before the crate is built
//! again.

use super::EncodedMoves;
use crate::moved::Moved;
use mc_model::every_field;

/// Names every field of encoded moves.
fn name_fields(moves: &EncodedMoves) {
    every_field!(moves: EncodedMoves {
        rows: Vec<(i32, Moved)>,
        joined: Vec<u8>,
        starts: Vec<usize>,
    });
}

const _: fn(&EncodedMoves) = name_fields;
