ghost use Rattle.std.specs.Prelude.{◌≡◌};
ghost use Rattle.mc_entities.specs.declared.fault.FolkFault.TheVariants as folk_faults;

use mc_bytes::NoMemory;
use std::error::Error;
use std::fmt;

/// Why an entity was not added. It is printed in plain words.
#[derive(Clone, Copy, Debug, PartialEq, Eq)]
pub enum FolkFault {
    /// As many dropped items lie as may lie.
    Full,
    /// All numbers were given.
    Spent,
    /// There was no memory for its place.
    NoMemory,
}

impl From<NoMemory> for FolkFault {
    ghost from_gives = { λ _ fault. fault ≡ folk_faults.NoMemory };

    fn from(_refusal: NoMemory) -> FolkFault {
        FolkFault::NoMemory
    }
}

impl fmt::Display for FolkFault {
    ghost use Rattle.std.specs.Prelude.{Some};
    ghost use Rattle.mc_entities.specs.FaultText.{folk_fault_text};

    ghost output = { λ fault. Some (folk_fault_text fault) };

    fn fmt<W: fmt::Write>(&self, f: &mut fmt::Formatter<W>) -> fmt::Result {
        match self {
            FolkFault::Full => f.write_str("too many dropped items"),
            FolkFault::Spent => f.write_str("no entity number is left"),
            FolkFault::NoMemory => f.write_str("out of memory"),
        }
    }
}

impl Error for FolkFault {}
