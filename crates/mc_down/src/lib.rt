//! The packets to a client in play, read.
//!
//! Stands on the packets of `mc_packets`, which it exports again. Its one contract: `read_down`
//! takes exactly the frames that spell a packet and says of all others the first fault and its
//! place; what `write_down` appends is read as the same packet.
#![tactic(auto)]

mod reading;

pub use mc_packets::{
    Down, MetaEntry, MetaValue, Metas, PacketFault, PacketRead, Player, PlayerChange, Players,
    Properties, Property, Record, Records, Slots, Speed, Texts, Varints, read_meta, write_down,
    write_meta,
};
pub use reading::read_down;
