//! What is kept of entities, field by field. This code refuses a copy of cells beside them, which
//! no contract does: a new field is named here before the crate is built again.

use super::Entities;
use mc_entities::Folk;
use mc_model::every_field;

/// Names every field of entities.
fn name_fields(whole: &Entities) {
    every_field!(whole: Entities {
        folk: Folk,
    });
}

const _: fn(&Entities) = name_fields;
