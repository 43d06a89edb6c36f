//! What is kept of a connection, field by field. This code refuses a copy of cells beside its mark,
//! which no contract does: a new field is named here before the crate is built again.

use super::Connection;
use crate::backlog::Backlog;
use mc_flush::Mark;
use mc_frame::Splitter;
use mc_model::{Cause, every_field};
use mc_session::Session;
use std::alloc::Global;

/// Names every field of a connection.
fn name_fields(connection: &Connection) {
    every_field!(connection: Connection {
        alloc: Global,
        id: u32,
        session: Session,
        splitter: Splitter,
        backlog: Backlog,
        cause: Option<Cause>,
        missed: u32,
        mark: Mark,
    });
}

const _: fn(&Connection) = name_fields;
