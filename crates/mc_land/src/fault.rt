ghost use Rattle.std.specs.Prelude.{◌≡◌};
ghost use Rattle.mc_land.specs.declared.fault.LandFault.TheVariants as land_faults;

use mc_bytes::NoMemory;
use std::error::Error;
use std::fmt;

/// Why a cell was not set. It is printed in plain words.
#[derive(Clone, Copy, Debug, PartialEq, Eq)]
pub enum LandFault {
    /// It is above or below the world, or past its border.
    Outside,
    /// There was no memory for its column or its chest.
    NoMemory,
}

impl From<NoMemory> for LandFault {
    ghost from_gives = { λ _ fault. fault ≡ land_faults.NoMemory };

    fn from(_refusal: NoMemory) -> LandFault {
        LandFault::NoMemory
    }
}

impl fmt::Display for LandFault {
    ghost use Rattle.std.specs.Prelude.{Some};
    ghost use Rattle.mc_land.specs.FaultText.{land_fault_text};

    ghost output = { λ fault. Some (land_fault_text fault) };

    fn fmt<W: fmt::Write>(&self, f: &mut fmt::Formatter<W>) -> fmt::Result {
        match self {
            LandFault::Outside => f.write_str("the cell lies outside the world"),
            LandFault::NoMemory => write!(f, "{NoMemory}"),
        }
    }
}

impl Error for LandFault {}
