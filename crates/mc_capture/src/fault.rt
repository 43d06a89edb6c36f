use std::error::Error;
use std::fmt;

/// What is wrong with the bytes of a capture.
#[derive(Clone, Copy, Debug, PartialEq, Eq)]
pub enum CaptureKind {
    /// It does not begin as a capture does.
    BadHead,
    /// A record is of no kind that there is.
    BadKind(u8),
    /// It ends inside a record.
    Short,
    /// A record says that it carries so many bytes, and may not.
    TooLong(u32),
}

impl fmt::Display for CaptureKind {
    ghost use Rattle.std.specs.Prelude.{Some};
    ghost use Rattle.mc_capture.specs.FaultText.{kind_text};

    ghost output = { λ kind. Some (kind_text kind) };

    fn fmt<W: fmt::Write>(&self, f: &mut fmt::Formatter<W>) -> fmt::Result {
        match self {
            CaptureKind::BadHead => f.write_str("it does not begin as a capture"),
            CaptureKind::BadKind(kind) => write!(f, "a record has the kind {kind}"),
            CaptureKind::Short => f.write_str("it ends inside a record"),
            CaptureKind::TooLong(size) => write!(f, "a record has {size} bytes"),
        }
    }
}

/// What is wrong with the bytes of a capture, and where: how many bytes stand before it, or 2^64 - 1
/// where that is larger.
#[derive(Clone, Copy, Debug, PartialEq, Eq)]
pub struct CaptureFault {
    /// What is wrong.
    pub kind: CaptureKind,
    /// How many bytes stand before it.
    pub at: u64,
}

impl fmt::Display for CaptureFault {
    ghost use Rattle.std.specs.Prelude.{Some};
    ghost use Rattle.mc_capture.specs.FaultText.{fault_text};

    ghost output = { λ fault. Some (fault_text fault) };

    fn fmt<W: fmt::Write>(&self, f: &mut fmt::Formatter<W>) -> fmt::Result {
        write!(f, "{}, at byte {}", self.kind, self.at)
    }
}

impl Error for CaptureFault {}

/// Why reading or writing a capture ended.
#[derive(Clone, Copy, Debug, PartialEq, Eq)]
pub enum CaptureEnd {
    /// Its bytes are no capture.
    Bad(CaptureFault),
    /// The source failed.
    Read,
    /// The sink failed.
    Write,
    /// There was no memory.
    NoMemory,
}

impl fmt::Display for CaptureEnd {
    ghost use Rattle.std.specs.Prelude.{Some};
    ghost use Rattle.mc_capture.specs.FaultText.{end_text};

    ghost output = { λ end. Some (end_text end) };

    fn fmt<W: fmt::Write>(&self, f: &mut fmt::Formatter<W>) -> fmt::Result {
        match self {
            CaptureEnd::Bad(fault) => write!(f, "no capture: {fault}"),
            CaptureEnd::Read => f.write_str("the source failed"),
            CaptureEnd::Write => f.write_str("the sink failed"),
            CaptureEnd::NoMemory => f.write_str("out of memory"),
        }
    }
}

impl Error for CaptureEnd {}
