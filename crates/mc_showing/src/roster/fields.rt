//! What a roster keeps, field by field. This code refuses a copy of cells beside it, which no
//! contract does: a new field is named here before the crate is built again.

use super::Roster;
use mc_flush::PlayerList;
use mc_model::every_field;

/// Names the one field of a roster.
fn name_fields(roster: &Roster) {
    every_field!(roster: Roster {
        list: PlayerList,
    });
}

const _: fn(&Roster) = name_fields;
