//! A connection as the server keeps it, and what it does on the game.
//!
//! Stands on the sessions of `mc_session`, the splitters and outboxes of `mc_frame`, the marks of
//! `mc_flush`, the game of `mc_play`, and the definitions of `mc_model`. Its one contract: each
//! call makes of a connection, or of one and the game, exactly what the definition makes of its
//! link, or of its seat, and changes nothing else of them.
#![tactic(auto)]

mod backlog;
mod beats;
mod connection;
mod seat;

pub use beats::beat;
pub use connection::{Connection, is_ours};
pub use seat::{depart, on_bytes};
