//! A packet of play as the frame that a client is sent.
//!
//! Stands on the packets of `mc_packets`, the frames of `mc_frame` and the definitions of
//! `mc_model`. Its one contract: what is appended is exactly the frame of the packet, or nothing.
#![tactic(auto)]

mod frames;

pub use frames::{put_made, put_packet};
