//! The server: what it makes of each event, and what each connection is owed.
//!
//! Stands on the game of `mc_play`, the connections of `mc_links`, what a tick shows by
//! `mc_showing`, and the definitions of `mc_model`. Its one contract: where a `Server` stands for a
//! world of the definitions, it stands after each event for the world that follows, and each
//! connection is owed exactly what that says.
#![tactic(auto)]

mod connections;
mod input;
mod server;

pub use input::Input;
pub use mc_play::Census;
pub use server::Server;
