ghost use Rattle.std.specs.Prelude.{◌≡◌, ◌-◌};
ghost use Rattle.mc_bytes.specs.declared.fault.ReadFault.TheVariants as read_fault;
ghost use Rattle.mc_bytes.specs.declared.fault.ReadError.TheVariants as read_error;

use crate::NoMemory;
use std::error::Error;
use std::fmt;

/// Why bytes are not the field that is asked for.
#[derive(Clone, Copy, Debug, PartialEq, Eq)]
pub enum Kind {
    /// The bytes end inside the field.
    Short,
    /// A VarInt whose fifth byte says that another follows.
    LongVarInt,
    /// A text that is not UTF-8.
    BadText,
    /// A text with more bytes or code points than its field allows.
    TooLong,
    /// A number that its field does not allow.
    BadNumber,
    /// A tag byte that names no kind of tag, or one that its place does not allow.
    BadTag,
    /// Lists and compounds within one another past the limit.
    Deep,
    /// A negative length, or one that its field does not allow.
    BadLength,
}

impl fmt::Display for Kind {
    ghost use Rattle.std.specs.Prelude.{Some};
    ghost use Rattle.mc_bytes.specs.FaultText.{kind_text};

    ghost output = { λ kind. Some (kind_text kind) };

    fn fmt<W: fmt::Write>(&self, f: &mut fmt::Formatter<W>) -> fmt::Result {
        f.write_str(match self {
            Kind::Short => "the bytes end inside a field",
            Kind::LongVarInt => "a VarInt has too many bytes",
            Kind::BadText => "a text is not UTF-8",
            Kind::TooLong => "a text is too long",
            Kind::BadNumber => "a number is not one that its field allows",
            Kind::BadTag => "a tag byte is not one that its place allows",
            Kind::Deep => "too many lists and compounds stand in one another",
            Kind::BadLength => "a length is not one that its field allows",
        })
    }
}

/// The first fault of some bytes, with its place counted from their end: what reading in order
/// meets.
#[derive(Clone, Copy, Debug, PartialEq, Eq)]
pub struct Stop {
    /// What is wrong.
    pub kind: Kind,
    /// How many bytes are left where the innermost field that fails begins.
    pub left: usize,
}

impl Stop {
    /// Counts its place from the front, in a list of `len` bytes.
    pub fn within(self, len: usize) -> FieldFault
        ensures kind { result.kind ≡ self.kind }
        ensures at { result.at ≡ len - self.left }
    {
        FieldFault {
            kind: self.kind,
            at: len.saturating_sub(self.left),
        }
    }
}

impl fmt::Display for Stop {
    ghost use Rattle.std.specs.Prelude.{Some};
    ghost use Rattle.mc_bytes.specs.FaultText.{stop_text};

    ghost output = { λ stop. Some (stop_text stop) };

    fn fmt<W: fmt::Write>(&self, f: &mut fmt::Formatter<W>) -> fmt::Result {
        write!(f, "{}, {} bytes before the end", self.kind, self.left)
    }
}

impl Error for Stop {}

/// Why a value that takes memory was not read.
#[derive(Clone, Copy, Debug, PartialEq, Eq)]
pub enum ReadError {
    /// The bytes do not spell it.
    Stop(Stop),
    /// There was no memory for it.
    NoMemory,
}

impl From<Stop> for ReadError {
    ghost from_gives = { λ stop error. error ≡ read_error.Stop stop };

    fn from(stop: Stop) -> ReadError {
        ReadError::Stop(stop)
    }
}

impl From<NoMemory> for ReadError {
    ghost from_gives = { λ _ error. error ≡ read_error.NoMemory };

    fn from(_refusal: NoMemory) -> ReadError {
        ReadError::NoMemory
    }
}

impl fmt::Display for ReadError {
    ghost use Rattle.std.specs.Prelude.{Some};
    ghost use Rattle.mc_bytes.specs.FaultText.{read_error_text};

    ghost output = { λ error. Some (read_error_text error) };

    fn fmt<W: fmt::Write>(&self, f: &mut fmt::Formatter<W>) -> fmt::Result {
        match self {
            ReadError::Stop(stop) => write!(f, "{stop}"),
            ReadError::NoMemory => write!(f, "{NoMemory}"),
        }
    }
}

impl Error for ReadError {}

/// The first fault of some bytes.
#[derive(Clone, Copy, Debug, PartialEq, Eq)]
pub struct FieldFault {
    /// What is wrong.
    pub kind: Kind,
    /// The offset of the first byte of the innermost field that fails.
    pub at: usize,
}

impl fmt::Display for FieldFault {
    ghost use Rattle.std.specs.Prelude.{Some};
    ghost use Rattle.mc_bytes.specs.FaultText.{field_fault_text};

    ghost output = { λ fault. Some (field_fault_text fault) };

    fn fmt<W: fmt::Write>(&self, f: &mut fmt::Formatter<W>) -> fmt::Result {
        write!(f, "{}, at byte {}", self.kind, self.at)
    }
}

impl Error for FieldFault {}

/// Why a field was not read.
#[derive(Clone, Copy, Debug, PartialEq, Eq)]
pub enum ReadFault {
    /// The bytes do not spell the field.
    Field(FieldFault),
    /// There was no memory for the value.
    NoMemory,
}

impl From<NoMemory> for ReadFault {
    ghost from_gives = { λ _ fault. fault ≡ read_fault.NoMemory };

    fn from(_refusal: NoMemory) -> ReadFault {
        ReadFault::NoMemory
    }
}

impl From<FieldFault> for ReadFault {
    ghost from_gives = { λ fault result. result ≡ read_fault.Field fault };

    fn from(fault: FieldFault) -> ReadFault {
        ReadFault::Field(fault)
    }
}

impl fmt::Display for ReadFault {
    ghost use Rattle.std.specs.Prelude.{Some};
    ghost use Rattle.mc_bytes.specs.FaultText.{read_fault_text};

    ghost output = { λ fault. Some (read_fault_text fault) };

    fn fmt<W: fmt::Write>(&self, f: &mut fmt::Formatter<W>) -> fmt::Result {
        match self {
            ReadFault::Field(fault) => write!(f, "{fault}"),
            ReadFault::NoMemory => write!(f, "{NoMemory}"),
        }
    }
}

impl Error for ReadFault {}
