//! What is kept of what was encoded, field by field: a new one is named here before the crate is
//! built again.

use super::Encoded;
use crate::encoded_lines::EncodedLines;
use bytes::Bytes;
use mc_loads::EncodedColumns;
use mc_model::every_field;
use mc_told::EncodedEntities;

/// Names every field of what was encoded.
fn name_fields(encoded: &Encoded) {
    every_field!(encoded: Encoded {
        players: Option<Bytes>,
        columns: EncodedColumns,
        entities: EncodedEntities,
        lines: EncodedLines,
    });
}

const _: fn(&Encoded) = name_fields;
