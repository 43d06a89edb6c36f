//! Texts: lines, words, numbers and hex that are read, and lines that are written in pieces.
//!
//! Stands on the devices of `mc_wire` and the hex of the crate `hex`. Its one contract: what is read
//! of a text is what the definitions of `specs` say of all its bytes, and what is put behind lines
//! that wait is written in its order, or a first part of it is where the sink fails.
#![tactic(auto)]

mod digits;
mod lines;
mod pieces;
mod unfinished;
mod words;

pub use digits::{long_number, ranged_u32};
pub use lines::{cut_line, goes_past, is_skipped, put_decoded, put_line, read_text};
pub use pieces::{HEX_PIECE, PIECE, put, put_hex, write_out};
pub use unfinished::Unfinished;
pub use words::{cut_word, is_text, number};
