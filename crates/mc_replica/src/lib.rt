//! The world of one client, made of the packets that it was sent, one after another.
//!
//! Stands on the packets of `mc_packets`, the columns of `mc_column` and the definitions of
//! `mc_model`. Its one contract: after each packet the replica is what the definitions make of the
//! packet, and a chunk whose bytes spell no body is a fault with its place and changes nothing.
#![tactic(auto)]

mod columns;
mod counting;
mod dump;
mod dump_fault;
mod entities;
mod lines;
mod places;
mod player_list;
mod replica;
mod seen;
mod seer;
mod slot_lines;
mod slot_row;
mod window;

pub use dump_fault::DumpFault;
pub use mc_model::SeenKind;
pub use player_list::Listed;
pub use replica::Replica;
pub use seen::Seen;
pub use seer::Seer;
pub use window::SeenWindow;
