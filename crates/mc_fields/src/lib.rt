//! The fields of the protocol's packets, read and written exactly, and packets as rows of them.
//!
//! Stands on the formats of `mc_bytes`. Its one contract: a reader takes exactly the bytes that
//! spell its field and says of all others the first fault and its place, and a writer appends a
//! spelling or leaves what was there; a table of rows makes the same of whole packets. Patterns of
//! numbers with a fraction are whole numbers here, and are mapped to 1/32 blocks and 1/256 turns.
#![tactic(auto)]

mod binary32;
mod binary64;
mod bounded;
mod field;
mod integers;
mod listed;
mod packet;
mod parts;
mod position;
mod row;
mod text;
mod tuple;
mod varint;

pub use binary32::{angle, degrees};
pub use binary64::{fixed, pattern};
pub use bounded::Bounded;
pub use field::{Field, STRING_MAX, VarInt};
pub use integers::{
    read_bool, read_i8, read_i16, read_i32, read_i64, read_u8, read_u16, read_u32, read_u64,
    read_u128, take_bool, take_i8, take_i16, take_i32, take_i64, write_bool, write_i8, write_i16,
    write_i32, write_i64,
};
pub use listed::{Listed, put_items, take_count, take_items, take_short_count};
pub use mc_bytes::{write_u8, write_u16, write_u32, write_u64, write_u128};
pub use packet::{PacketFault, PacketRead, RowError, RowFault, whole};
pub use position::{Cell, Spot, pack, take_position, unpack, write_position};
pub use row::{put_row, put_row2, put_row3, put_row4, put_row5, put_row6, put_row7};
pub use text::{read_text, take_str, take_text, write_text};
pub use tuple::{put2, put3, put4, put5, put6, put7};
pub use varint::{VARINT_MAX, read_varint, take_varint, take_varint_within, write_varint};
