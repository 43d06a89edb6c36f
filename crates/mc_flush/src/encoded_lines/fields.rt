//! What is kept of encoded lines, field by field: a new one is named here before the crate is built
//! again.

use super::EncodedLines;
use crate::encoded_line::EncodedLine;
use bytes::Bytes;
use mc_model::every_field;

/// Names every field of encoded lines.
fn name_fields(encoded: &EncodedLines) {
    every_field!(encoded: EncodedLines {
        lines: Vec<EncodedLine>,
        piece: Option<Bytes>,
    });
}

const _: fn(&EncodedLines) = name_fields;
