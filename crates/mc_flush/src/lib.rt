//! What a client is sent at a tick.
//!
//! Stands on `mc_told`, `mc_loads`, the definitions of `mc_model`, the views of `mc_view`, and the
//! land and the packets. Its one contract: where a mark stands for what a client was shown, `flush`
//! appends exactly the frames of the difference to what the borrowed parts are, then those of the
//! notes, and the mark stands for that. What is the same for all clients of a tick is encoded once
//! and shared by `flush_with`, which appends the same.
#![tactic(auto)]

mod client_view;
mod encoded;
mod encoded_line;
mod encoded_lines;
mod mark;
mod names;
mod noted;
mod notes;
mod player_list;
mod pushing;
mod slots;
mod windows;

pub use client_view::{ClientView, flush, flush_with};
pub use encoded::Encoded;
pub use mark::Mark;
pub use mc_sending::{put_made, put_packet};
pub use notes::placing_packet;
pub use player_list::PlayerList;
