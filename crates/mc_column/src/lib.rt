//! Columns of cells with their biomes, and chunk bodies read and written.
//!
//! It stands on the byte lists and faults of `mc_bytes`. Its one contract: a column is its 65,536
//! states and 256 biomes; a body is read exactly where the bytes spell one, else the fault of its
//! size; and the body that is written for a column's mask, lit from the top, is read back as that
//! column.
#![tactic(auto)]

mod body;
mod column;
mod laws;
mod light;
mod mask;
mod put;
mod section;
mod sizes;
mod sparse;
mod write;

pub use body::{Body, read_body};
pub use column::Column;
pub use laws::bodies_read_back;
pub use section::Section;
