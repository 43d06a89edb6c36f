//! What is kept of what a connection is owed, field by field. This code refuses a copy of cells
//! beside it, which no contract does: a new field is named here before the crate is built again.

use super::Backlog;
use mc_frame::Outbox;
use mc_model::every_field;
use std::alloc::Global;

/// Names every field of a backlog.
fn name_fields(backlog: &Backlog) {
    every_field!(backlog: Backlog {
        alloc: Global,
        outbox: Outbox,
    });
}

const _: fn(&Backlog) = name_fields;
