ghost use Rattle.std.specs.Prelude.{◌≡◌};
ghost use Rattle.mc_bytes.specs.Reading.{Yields};
ghost use Rattle.mc_fields.specs.declared.packet.RowError.TheVariants as row_errors;
ghost use Rattle.mc_fields.specs.Row.{whole, packet_fault, row_error_of, packet_read_of};

use mc_bytes::{Cursor, FieldFault, NoMemory, ReadError, Stop};
use std::error::Error;
use std::fmt;

/// Why a frame is no packet, with places counted from the frame's end: what reading in order meets.
#[derive(Clone, Copy, Debug, PartialEq, Eq)]
pub enum RowFault {
    /// The id reads and names no packet.
    UnknownId(i32),
    /// The id or a field does not read.
    Stop(Stop),
    /// So many bytes are left after the last field.
    Trailing(usize),
}

impl RowFault {
    /// Counts its place from the front of a frame of `len` bytes.
    pub fn within(self, len: usize) -> PacketFault
        ensures { result ≡ packet_fault len self }
    {
        match self {
            RowFault::UnknownId(id) => PacketFault::UnknownId(id),
            RowFault::Stop(stop) => PacketFault::Field(stop.within(len)),
            RowFault::Trailing(count) => PacketFault::Trailing(count),
        }
    }
}

impl From<Stop> for RowFault {
    ghost use Rattle.mc_fields.specs.declared.packet.RowFault.TheVariants as row_faults;

    ghost from_gives = { λ stop fault. fault ≡ row_faults.Stop stop };

    fn from(stop: Stop) -> RowFault {
        RowFault::Stop(stop)
    }
}

/// Why a packet was not read.
#[derive(Clone, Copy, Debug, PartialEq, Eq)]
pub enum RowError {
    /// The frame does not spell one.
    Fault(RowFault),
    /// There was no memory for it.
    NoMemory,
}

impl RowError {
    /// Counts the place of its fault from the front of a frame of `len` bytes.
    pub fn within(self, len: usize) -> PacketRead
        ensures { result ≡ packet_read_of len self }
    {
        match self {
            RowError::Fault(fault) => PacketRead::Fault(fault.within(len)),
            RowError::NoMemory => PacketRead::NoMemory,
        }
    }
}

impl From<RowFault> for RowError {
    ghost from_gives = { λ fault error. error ≡ row_errors.Fault fault };

    fn from(fault: RowFault) -> RowError {
        RowError::Fault(fault)
    }
}

impl From<Stop> for RowError {
    ghost use Rattle.mc_fields.specs.declared.packet.RowFault.TheVariants as row_faults;

    ghost from_gives = { λ stop error. error ≡ row_errors.Fault (row_faults.Stop stop) };

    fn from(stop: Stop) -> RowError {
        RowError::Fault(RowFault::Stop(stop))
    }
}

impl From<ReadError> for RowError {
    ghost from_gives = { λ read error. error ≡ row_error_of read };

    fn from(error: ReadError) -> RowError {
        match error {
            ReadError::Stop(stop) => RowError::Fault(RowFault::Stop(stop)),
            ReadError::NoMemory => RowError::NoMemory,
        }
    }
}

impl From<NoMemory> for RowError {
    ghost from_gives = { λ _ error. error ≡ row_errors.NoMemory };

    fn from(_refusal: NoMemory) -> RowError {
        RowError::NoMemory
    }
}

/// Why a frame is no packet.
#[derive(Clone, Copy, Debug, PartialEq, Eq)]
pub enum PacketFault {
    /// The id reads and names no packet.
    UnknownId(i32),
    /// The id or a field does not read: the first one, and the offset of the field that fails.
    Field(FieldFault),
    /// So many bytes are left after the last field.
    Trailing(usize),
}

impl fmt::Display for PacketFault {
    ghost use Rattle.std.specs.Prelude.{Some};
    ghost use Rattle.mc_fields.specs.PacketText.{packet_fault_text};

    ghost output = { λ fault. Some (packet_fault_text fault) };

    fn fmt<W: fmt::Write>(&self, f: &mut fmt::Formatter<W>) -> fmt::Result {
        match self {
            PacketFault::UnknownId(id) => write!(f, "no packet has the id {id}"),
            PacketFault::Field(fault) => write!(f, "{fault}"),
            PacketFault::Trailing(count) => write!(f, "{count} bytes follow the last field"),
        }
    }
}

impl Error for PacketFault {}

/// Why a packet was not read.
#[derive(Clone, Copy, Debug, PartialEq, Eq)]
pub enum PacketRead {
    /// The frame does not spell one.
    Fault(PacketFault),
    /// There was no memory for it.
    NoMemory,
}

impl fmt::Display for PacketRead {
    ghost use Rattle.std.specs.Prelude.{Some};
    ghost use Rattle.mc_fields.specs.PacketText.{packet_read_text};

    ghost output = { λ read. Some (packet_read_text read) };

    fn fmt<W: fmt::Write>(&self, f: &mut fmt::Formatter<W>) -> fmt::Result {
        match self {
            PacketRead::Fault(fault) => write!(f, "{fault}"),
            PacketRead::NoMemory => write!(f, "{NoMemory}"),
        }
    }
}

impl Error for PacketRead {}

/// A packet with nothing after it. `Trailing` where bytes are left.
pub fn whole<P: Drop>(packet: P, cursor: &Cursor<'_>) -> Result<P, RowFault>
    ensures { Yields (λ read. read) result (whole packet cursor.now) }
{
    match cursor.rest() {
        [] => Ok(packet),
        rest => Err(RowFault::Trailing(rest.len())),
    }
}
