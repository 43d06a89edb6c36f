//! What a slot of a window holds: on the wire a stack of any item with a tag or none, in the world
//! a pile of an item.
//!
//! Stands on the formats and the NBT of `mc_nbt`. Its one contract: a slot is read exactly where
//! its bytes spell one, with the first fault and its place for all others, and is written as one
//! spelling; piles are merged and split without an item lost or made.
#![tactic(auto)]

mod chest;
mod field;
mod pile;
mod slot;

pub use chest::{CHEST_PILES, Chest};
pub use pile::{Item, PILE_MAX, Pile, alike, fits, merge, split};
pub use slot::{Slot, Stack, read_slot, take_slot, write_slot};
