//! The packets of a connection before it plays, both ways.
//!
//! Stands on the fields and packet rows of `mc_fields`. Its one contract, the same for each of its
//! enums: a reader takes exactly the frames that spell a packet, and says of all others the first
//! fault and its place; a writer appends a spelling that is read as the same packet, or leaves what
//! was there.
#![tactic(auto)]

mod handshake;
mod login_down;
mod login_up;
mod status_down;
mod status_up;

pub use handshake::{Hand, read_hand, write_hand};
pub use login_down::{LoginDown, read_login_down, write_login_down};
pub use login_up::{LoginUp, read_login_up, write_login_up};
pub use status_down::{StatusDown, read_status_down, write_status_down};
pub use status_up::{StatusUp, read_status_up, write_status_up};
