use mc_bytes::Octets;
use std::error::Error;
use std::fmt;

/// Why a stream can't be cut any further. The number is the count of the stream's bytes before the
/// frame at fault, or 2^64 - 1 where that is larger.
#[derive(Clone, Copy, Debug, PartialEq, Eq)]
pub enum FrameFault {
    /// The third byte of the length says that another follows.
    LongLength(u64),
    /// The length is 0.
    ZeroLength(u64),
}

impl fmt::Display for FrameFault {
    ghost use Rattle.std.specs.Prelude.{Some};
    ghost use Rattle.mc_frame.specs.FaultText.{frame_fault_text};

    ghost output = { λ fault. Some (frame_fault_text fault) };

    fn fmt<W: fmt::Write>(&self, f: &mut fmt::Formatter<W>) -> fmt::Result {
        match self {
            FrameFault::LongLength(at) => {
                write!(
                    f,
                    "a frame's length has more than three bytes, at byte {at}"
                )
            }
            FrameFault::ZeroLength(at) => write!(f, "a frame's length is 0, at byte {at}"),
        }
    }
}

impl Error for FrameFault {}

/// What a splitter has at the front of the bytes that it holds.
#[derive(Drop)]
pub enum Take {
    /// The payload of a whole frame.
    Frame(Octets),
    /// A part of a frame, or nothing.
    More,
    /// No frame, whatever follows.
    Bad(FrameFault),
}

/// What a splitter has at the front of the bytes that it holds, without copying it.
#[derive(Clone, Copy)]
pub enum Peek<'a> {
    /// The payload of a whole frame, and how many bytes the frame has.
    Frame(&'a [u8], usize),
    /// A part of a frame, or nothing.
    More,
    /// No frame, whatever follows.
    Bad(FrameFault),
}
