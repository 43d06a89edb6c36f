//! The game as a server keeps it: the land, the entities, who is in play, and what each name
//! carries.
//!
//! Stands on the definitions of `mc_model`. Its one contract: each call makes of what is kept
//! exactly what the definition makes of the game that it stands for.
#![tactic(auto)]

mod census;
mod entities;
mod game;
mod ground;
mod hands;
mod limits;
mod lines;
mod packs;
mod players;
mod reach;
mod ripe;

pub use census::Census;
pub use game::{ActFault, Game};
pub use lines::Lines;
pub use packs::Packs;
pub use players::Players;
