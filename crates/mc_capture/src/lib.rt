//! Captures: what happened between a server and its clients, record by record, written and read.
//!
//! Stands on the devices of `mc_wire` and the numbers of `mc_bytes`. Its one contract: what a
//! writer writes are the bytes of its records, and what a reader reads are records, one after
//! another, until the capture ends or its bytes are no record, which is told with its place; and a
//! lobby that is taped passes each call on and writes the records of what happened.
#![tactic(auto)]

mod conversation;
mod conversations;
mod fault;
mod fill;
mod frame_lines;
mod heading;
mod hearing;
mod names;
mod packets;
mod pieces;
mod reader;
mod record;
mod states;
mod tape_state;
mod taped;
mod taped_since;
mod unwritten;
mod viewing;
mod writer;

pub use fault::{CaptureEnd, CaptureFault, CaptureKind};
pub use packets::turn_of;
pub use reader::Reader;
pub use record::{BYTES_MAX, HEAD, KINDS, Record};
pub use states::{State, States, Turn, Way};
pub use tape_state::TapeState;
pub use taped::Taped;
pub use taped_since::{Started, TapedSince};
pub use viewing::view;
pub use writer::Writer;
