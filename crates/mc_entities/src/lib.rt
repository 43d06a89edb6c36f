//! Who and what is in the world: players, dropped items and mobs, each under a number of its own,
//! and the minds that move mobs.
//!
//! Stands on the spots of `mc_fields` and the piles of `mc_slots`. Its one contract: a folk is a
//! list of entities by rising number, no number is ever given twice, each call changes the entity
//! that it names and no other, and after `reserve(n)` the next n dropped items find their places.
#![tactic(auto)]

mod entity;
mod fault;
mod folk;
mod mind;
mod places;
mod planned;
mod shifting;
mod ticking;

pub use entity::{DROPPED_MAX, EID_MAX, Entity, EntityKind};
pub use fault::FolkFault;
pub use folk::Folk;
pub use mind::{Mind, Move};
pub use planned::Planned;
pub use shifting::{FLAT_END, HIGHEST, LOWEST};
