//! What is kept of what was said, field by field. This code refuses a copy of cells beside it, which
//! no contract does: a new field is named here before the crate is built again.

use super::Lines;
use mc_bytes::Text;
use mc_model::every_field;

/// Names the one field of all lines.
fn name_fields(lines: &Lines) {
    every_field!(lines: Lines {
        texts: Vec<Text>,
    });
}

const _: fn(&Lines) = name_fields;
