//! What is kept of players, field by field. This code refuses a copy of cells beside them, which no
//! contract does: a new field is named here before the crate is built again.

use super::Players;
use mc_fields::Cell;
use mc_model::{Eid, Name, Notes, Player, every_field};
use std::collections::BTreeMap;

/// Names the one field of all players.
fn name_fields(players: &Players) {
    every_field!(players: Players {
        by_connection: BTreeMap<u32, Player>,
    });
}

/// Names every field of a player.
fn name_player(player: &Player) {
    every_field!(player: Player {
        name: Name,
        uuid: u128,
        eid: Eid,
        view_byte: i8,
        hand: u8,
        since: usize,
        chest: Option<Cell>,
        notes: Notes,
    });
}

const _: fn(&Players) = name_fields;

const _: fn(&Player) = name_player;
