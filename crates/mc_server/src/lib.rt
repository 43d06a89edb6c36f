//! The loop that serves a lobby with a server.
//!
//! Stands on the server of `mc_events`, to which it lends the minds of `mc_entities` that move its
//! mobs, on the settings of `mc_model`, and on the lobbies of `mc_wire`. Its one contract is
//! `drive`: a lobby is served turn by turn, the server stands for the world after the log of that,
//! and whatever is served so was promised.
#![tactic(auto)]

mod server;
mod service;

pub use mc_events::{Census, Input};
pub use mc_model::Settings;
pub use server::{Server, Serving};
pub use service::{Budget, DriveFault, Ended, Tally, drive};
