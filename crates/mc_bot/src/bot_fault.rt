ghost use Rattle.std.specs.Prelude.{◌≡◌};
ghost use Rattle.mc_bot.specs.declared.bot_fault.BotFault.TheVariants as faults;

use mc_bytes::{FieldFault, NoMemory, ReadFault, Text};
use mc_fields::PacketFault;
use mc_frame::FrameFault;
use mc_replica::DumpFault;
use mc_wire::Failed;
use std::alloc::AllocError;
use std::error::Error;
use std::fmt;

/// Why a script was not played to its end, or its dump not written.
#[derive(Drop)]
pub enum BotFault {
    /// The link failed.
    Link,
    /// The output failed.
    Write,
    /// The server closed the link, with these words, or with none.
    Closed(Text),
    /// What the server sends can't be cut into frames any further.
    Frame(FrameFault),
    /// A frame is no packet, behind so many that were read.
    Packet(PacketFault, u64),
    /// The bytes of a column are none.
    Body(FieldFault),
    /// So many reads in a row were quiet while a packet was waited for.
    Patience(u64),
    /// A cell has another state than the one that a line wants, or is not known.
    Expect {
        line: u32,
        want: u16,
        have: Option<u16>,
    },
    /// There was no memory.
    NoMemory,
}

impl fmt::Display for BotFault {
    ghost use Rattle.std.specs.Prelude.{Some};
    ghost use Rattle.mc_bot.specs.FaultText.{bot_fault_text};

    ghost output = { λ fault. Some (bot_fault_text fault) };

    fn fmt<W: fmt::Write>(&self, f: &mut fmt::Formatter<W>) -> fmt::Result {
        match self {
            BotFault::Link => f.write_str("the link to the server failed"),
            BotFault::Write => f.write_str("the output failed"),
            BotFault::Closed(reason) => {
                let reason = reason.as_str();
                write!(f, "the server closed the link, and said \"{reason}\"")
            }
            BotFault::Frame(fault) => write!(f, "{fault}"),
            BotFault::Packet(fault, count) => write!(f, "behind {count} packets: {fault}"),
            BotFault::Body(fault) => write!(f, "a column: {fault}"),
            BotFault::Patience(count) => write!(f, "{count} quiet reads in a row"),
            BotFault::Expect {
                line,
                want,
                have: Some(have),
            } => write!(f, "line {line}: want {want}, have {have}"),
            BotFault::Expect {
                line,
                want,
                have: None,
            } => write!(f, "line {line}: want {want}, have none"),
            BotFault::NoMemory => write!(f, "{NoMemory}"),
        }
    }
}

impl fmt::Debug for BotFault {
    fn fmt<W: fmt::Write>(&self, f: &mut fmt::Formatter<W>) -> fmt::Result {
        fmt::Display::fmt(self, f)
    }
}

impl Error for BotFault {}

impl From<Failed> for BotFault {
    ghost from_gives = { λ _ fault. fault ≡ faults.Link };

    fn from(_failure: Failed) -> BotFault {
        BotFault::Link
    }
}

impl From<NoMemory> for BotFault {
    ghost from_gives = { λ _ fault. fault ≡ faults.NoMemory };

    fn from(_refusal: NoMemory) -> BotFault {
        BotFault::NoMemory
    }
}

impl From<AllocError> for BotFault {
    ghost from_gives = { λ _ fault. fault ≡ faults.NoMemory };

    fn from(_refusal: AllocError) -> BotFault {
        BotFault::NoMemory
    }
}

impl From<DumpFault> for BotFault {
    ghost use Rattle.mc_bot.specs.BotFaults.{fault_of_dump};

    ghost from_gives = { λ dump fault. fault ≡ fault_of_dump dump };

    fn from(fault: DumpFault) -> BotFault {
        match fault {
            DumpFault::Write => BotFault::Write,
            DumpFault::NoMemory => BotFault::NoMemory,
        }
    }
}

impl From<ReadFault> for BotFault {
    ghost use Rattle.mc_bot.specs.BotFaults.{fault_of_read};

    ghost from_gives = { λ read fault. fault ≡ fault_of_read read };

    fn from(fault: ReadFault) -> BotFault {
        match fault {
            ReadFault::Field(fault) => BotFault::Body(fault),
            ReadFault::NoMemory => BotFault::NoMemory,
        }
    }
}
