//! What a mark keeps, field by field. This code refuses a copy of cells in it, which no contract does:
//! a new field is named here before the crate is built again.

use super::Mark;
use crate::windows::Window;
use mc_model::every_field;
use mc_slots::Pile;
use mc_told::Clock;
use mc_view::{Tracker, ViewSet};
use mc_windows::PACK_PILES;

/// Names every field of a mark.
fn name_fields(mark: &Mark) {
    every_field!(mark: Mark {
        clock: Clock,
        shown: Option<ViewSet>,
        told: Tracker,
        window: Option<Window>,
        slots: [Pile; PACK_PILES],
        cursor: Pile,
    });
}

const _: fn(&Mark) = name_fields;
