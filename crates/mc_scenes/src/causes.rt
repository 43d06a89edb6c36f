//! Words that name a cause, or why a client may not play.

use mc_fields::PacketFault;
use mc_frame::FrameFault;
use mc_model::{Cause, Refusal};
use mc_rows::Words;

/// The next words as a fault of frames: `zero` or `long`, and where it is.
pub fn fault_in(words: &mut Words<'_>) -> FrameFault {
    match words.word() {
        "zero" => FrameFault::ZeroLength(words.number()),
        "long" => FrameFault::LongLength(words.number()),
        _ => {
            words.fail();
            FrameFault::ZeroLength(0)
        }
    }
}

/// The next words as a cause.
pub fn cause_in(words: &mut Words<'_>) -> Cause {
    match words.word() {
        "frame" => Cause::Frame(fault_in(words)),
        "packet" => Cause::Packet(PacketFault::UnknownId(words.number())),
        "number" => Cause::BadNumber,
        "silent" => Cause::Silent,
        "gone" => Cause::Gone,
        "backlog" => Cause::Backlog,
        _ => {
            words.fail();
            Cause::Gone
        }
    }
}

/// The next word as why a client may not play.
pub fn refusal_in(words: &mut Words<'_>) -> Refusal {
    match words.word() {
        "version" => Refusal::Version,
        "name" => Refusal::Name,
        "taken" => Refusal::Taken,
        "full" => Refusal::Full,
        _ => {
            words.fail();
            Refusal::Full
        }
    }
}
