//! What is kept of packs, field by field. This code refuses a copy of cells beside them, which no
//! contract does: a new field is named here before the crate is built again.

use super::Packs;
use indexmap::IndexMap;
use mc_model::every_field;
use mc_windows::Pack;

/// Names every field of packs.
fn name_fields(whole: &Packs) {
    every_field!(whole: Packs {
        by_name: IndexMap<String, Pack>,
    });
}

const _: fn(&Packs) = name_fields;
