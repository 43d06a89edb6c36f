//! One client's world out of a capture: the packets of play that the client took make a replica,
//! which is written as text.
//!
//! Stands on the captures of `mc_capture` and the replica of `mc_replica`. Its one contract: of a
//! capture that is read to its end, what is written is the dump of the world that the packets of
//! play to the client make; of bytes that are no capture nothing is written, and what is wrong with
//! them is told with its place.
#![tactic(auto)]

mod client;
mod following;
mod showing;

pub use showing::show;
