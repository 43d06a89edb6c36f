//! The packets to a client in play, as values and as bytes, and the metadata of entities that some
//! of them hold.
//!
//! Stands on the fields and rows of `mc_fields` and the slots of `mc_slots`. Its one contract:
//! `write_down` appends the one spelling of a packet that is written, with its VarInts the
//! shortest, or leaves what was there; `read_meta` takes exactly the bytes that spell metadata and
//! says of all others the first fault and its place, and `write_meta` appends its one spelling. The
//! reader of whole packets is `mc_down`.
#![tactic(auto)]

mod counted;
mod down;
mod lists;
mod meta;
mod metadata;
mod parts;
mod player;
mod player_list;
mod players;
mod record;
mod writing;

pub use down::Down;
pub use lists::{Players, Properties, Records, Slots, Texts, Varints};
pub use mc_fields::{PacketFault, PacketRead};
pub use meta::{MetaEntry, MetaValue, Metas};
pub use metadata::{read_meta, write_meta};
pub use parts::{is_horse, take_horse_if, take_rest, take_speed_if};
pub use player::{Player, PlayerChange, Property};
pub use player_list::read_player_list;
pub use record::{Record, Speed};
pub use writing::write_down;
