//! NBT: values, and their bytes.
//!
//! Stands on the byte lists, faults and numbers of `mc_bytes`, which it exports again. Its one
//! contract: `read_nbt` takes exactly the spellings that `SpellsNbt` names, whatever bytes come,
//! and says of all others the first fault and its place; `write_nbt` appends the one spelling of
//! its value, or leaves what was there.
#![tactic(auto)]

mod values;

pub use mc_bytes::{
    Cursor, FieldFault, Kind, NoMemory, Octets, ReadError, ReadFault, Stop, Text, placed,
    write_octets, write_u8, write_u16, write_u32, write_u64, write_u128,
};
pub use values::{DEPTH_MAX, Entries, Ints, Nbt, Tag, Tags, read_nbt, same, write_nbt};
