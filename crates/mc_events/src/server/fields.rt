//! What a server keeps, field by field. This code refuses a copy of cells beside the marks, which no
//! contract does: a new field is named here before the crate is built again.

use super::Server;
use crate::connections::Connections;
use mc_model::every_field;
use mc_play::Game;
use mc_showing::Roster;
use std::alloc::Global;

/// Names every field of a server.
fn name_fields(server: &Server) {
    every_field!(server: Server {
        alloc: Global,
        game: Game,
        last: Option<u32>,
        ids: Vec<u32>,
        connections: Connections,
        list: Roster,
        failed: bool,
    });
}

const _: fn(&Server) = name_fields;
