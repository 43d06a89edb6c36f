//! What a client in play is shown of a game at a tick.
//!
//! Stands on the game of `mc_play`, the definitions of `mc_model`, and the flushes of `mc_flush`.
//! Its one contract: where a mark stands for what a client was shown at the last tick, `push_for`
//! appends exactly the frames that are due to it, and the mark then stands for what it is shown.
#![tactic(auto)]

mod client;
mod opening;
mod prepare;
mod roster;
mod scene;
mod views;

pub use client::client_of;
pub use prepare::{prepare_one, start};
pub use roster::{LISTED_MAX, Roster};
pub use scene::Scene;
pub use views::views_of;
