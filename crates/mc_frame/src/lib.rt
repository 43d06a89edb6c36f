//! A stream cut into frames, whatever the pieces in which it comes, and the bytes that wait to be
//! sent.
//!
//! Stands on the VarInts of `mc_fields` and the shared buffers of the kit's `bytes`. Its one
//! contract: there is exactly one cut of every stream, and a `Splitter` gives its frames, and its
//! fault, however the bytes were fed; an `Outbox` is the list of the bytes that it holds.
#![tactic(auto)]

mod fault;
mod frame;
mod laws;
mod outbox;
mod splitter;

pub use fault::{FrameFault, Peek, Take};
pub use frame::write_frame;
pub use laws::{one_cut, same_frames_in_any_pieces};
pub use outbox::{OUTBOX_MAX, Outbox};
pub use splitter::{HELD_MAX, Splitter};
