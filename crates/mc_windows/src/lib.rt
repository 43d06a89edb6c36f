//! A player's pack, the clicks that move its piles, and what is picked up.
//!
//! Stands on the piles and chests of `mc_slots`. Its one contract: a click does to the pack, the
//! shown chest and what is dropped exactly what its row of the table of clicks says, or is refused
//! for the first of six tests and changes nothing but the wait; and neither a click nor a pickup
//! loses or makes an item.
#![tactic(auto)]

mod clicking;
mod desk;
mod floor;
mod moves;
mod order;
mod pack;
mod piles;
mod place;
mod request;
mod row;
mod storing;

pub use clicking::{Clicked, click};
pub use pack::{LAST_WINDOW, MAIN_PILES, PACK_PILES, Pack, answer, begin, finish, kit};
pub use request::{Click, Why};
pub use storing::store;
