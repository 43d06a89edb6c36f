//! The packets of play to the server, and those before play, which `mc_hello` has.
//!
//! Stands on the fields and packet rows of `mc_fields`, the slots of `mc_slots` and the packets of
//! `mc_hello`. Its one contract, the same as there: a reader takes exactly the frames that spell a
//! packet, and says of all others the first fault and its place; a writer appends a spelling that
//! is read as the same packet, or leaves what was there.
#![tactic(auto)]

mod play_up;

pub use mc_fields::{PacketFault, PacketRead};
pub use mc_hello::{
    Hand, LoginDown, LoginUp, StatusDown, StatusUp, read_hand, read_login_down, read_login_up,
    read_status_down, read_status_up, write_hand, write_login_down, write_login_up,
    write_status_down, write_status_up,
};
pub use play_up::{Hit, PlayUp, read_play_up, write_play_up};
