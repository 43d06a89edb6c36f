//! What a mark keeps of a window, field by field. This code refuses a copy of cells beside it, which
//! no contract does: a new field is named here before the crate is built again.

use super::Window;
use mc_model::every_field;
use mc_slots::Chest;

/// Names every field of a window.
fn name_fields(window: &Window) {
    every_field!(window: Window {
        number: u8,
        chest: Chest,
    });
}

const _: fn(&Window) = name_fields;
