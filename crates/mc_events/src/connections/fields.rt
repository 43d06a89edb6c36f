//! What is kept of connections, field by field. This code refuses a copy of cells beside their
//! marks, which no contract does: a new field is named here before the crate is built again.

use super::Connections;
use mc_links::Connection;
use mc_model::every_field;
use std::collections::BTreeMap;

/// Names the one field of all connections.
fn name_fields(connections: &Connections) {
    every_field!(connections: Connections {
        by_number: BTreeMap<u32, Connection>,
    });
}

const _: fn(&Connections) = name_fields;
