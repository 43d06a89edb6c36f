//! The generated load played on a server: the project's measure of speed.
//!
//! Stands on the server of `mc_server`, on what the clients of a load send (`mc_load`), on the
//! events and worlds of `mc_model`, and on the sinks of `mc_wire`. Its one contract is `load`: the
//! one line that it writes tells what the definition of the load comes to
//! (`specs/LoadText.antt`), and nothing is written without memory.
#![tactic(auto)]

mod line;
mod measured;
mod playing;
mod taking;
mod telling;

pub use telling::{LoadEnd, load};
