//! The command `status`: the bytes of one client, as lines of hex, and what answers them.
//!
//! Stands on the server of `mc_events` and on the lines of `mc_words`. Its one contract is
//! `write_status`: it writes exactly what the definition (`specs/StatusText.antt`) says of an
//! input, in which bytes come one by one, and finds its first fault.
#![tactic(auto)]

mod answers;
mod kept_line;
mod playing;
mod status;

pub use status::write_status;
