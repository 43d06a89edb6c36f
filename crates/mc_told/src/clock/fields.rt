//! What a clock keeps, field by field: a new one is named here before the crate is built again.

use super::Clock;
use mc_model::every_field;

/// Names every field of a clock.
fn name_fields(clock: &Clock) {
    every_field!(clock: Clock {
        beat: Option<i32>,
        age: Option<i64>,
    });
}

const _: fn(&Clock) = name_fields;
