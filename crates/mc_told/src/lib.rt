//! What one client is told of entities and of the world's age, and the frames that tell it.
//!
//! Stands on the entities of `mc_entities`, the views and trackers of `mc_view`, and the packets
//! and definitions of `mc_model`. Its one contract: what is appended is exactly the frames of what
//! differs from what the client was told, and what is kept then is what it was told.
#![tactic(auto)]

mod clock;
mod encoded_entities;
mod encoded_looks;
mod encoded_moves;
mod entities;
mod known;
mod moved;
mod moves;
mod numbered;
mod packets;
mod piles;
mod row;
mod spawned;
mod spawns;
mod unchanged;

pub use clock::Clock;
pub use encoded_entities::EncodedEntities;
pub use entities::{EntityView, tell};
