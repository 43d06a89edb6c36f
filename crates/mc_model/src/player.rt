use crate::{Eid, Name, Notes};
use mc_fields::Cell;

/// One player, in play.
#[derive(Drop)]
pub struct Player {
    /// Its name.
    pub name: Name,
    /// Its identifier.
    pub uuid: u128,
    /// The number of its entity.
    pub eid: Eid,
    /// The size of view that it asked for, as its packet has it.
    pub view_byte: i8,
    /// The place of the hotbar that its hand is on, 0 to 8.
    pub hand: u8,
    /// How many of the lines that were said since the last tick had been said before it joined.
    pub since: usize,
    /// The cell of the chest whose window it is shown; None where it is shown its own.
    pub chest: Option<Cell>,
    /// What its client is to be sent at the next tick, whatever the difference says.
    pub notes: Notes,
}
