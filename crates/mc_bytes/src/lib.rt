//! What every other crate of the server stands on: byte lists, the faults of a field and their
//! places, formats with their laws, numbers, and the cursor that reads them.
//!
//! Stands on the kit's `std` alone. Its one contract: a reader takes exactly the spellings that the
//! formats of numbers and bytes name, whatever bytes come, and says of all others the first fault
//! and its place; a writer appends the one spelling of its value, or leaves what was there.
#![tactic(auto)]

mod bytes;
mod fault;
mod memory;
mod reading;
mod writing;

pub use bytes::{Octets, Text};
pub use fault::{FieldFault, Kind, ReadError, ReadFault, Stop};
pub use memory::NoMemory;
pub use reading::{Cursor, placed};
pub use writing::{write_octets, write_u8, write_u16, write_u32, write_u64, write_u128};
