ghost use Rattle.std.specs.Prelude.{◌≡◌};

use mc_bytes::NoMemory;
use mc_wire::Failed;
use mc_text::Unfinished;

/// Why a dump was not written whole.
#[derive(Clone, Copy, Debug, PartialEq, Eq)]
pub enum DumpFault {
    /// The sink failed.
    Write,
    /// There was no memory.
    NoMemory,
}

impl From<Failed> for DumpFault {
    ghost use Rattle.mc_replica.specs.declared.dump_fault.DumpFault.TheVariants as faults;

    ghost from_gives = { λ _ fault. fault ≡ faults.Write };

    fn from(_failure: Failed) -> DumpFault {
        DumpFault::Write
    }
}

impl From<NoMemory> for DumpFault {
    ghost use Rattle.mc_replica.specs.declared.dump_fault.DumpFault.TheVariants as faults;

    ghost from_gives = { λ _ fault. fault ≡ faults.NoMemory };

    fn from(_refusal: NoMemory) -> DumpFault {
        DumpFault::NoMemory
    }
}

impl From<Unfinished> for DumpFault {
    ghost use Rattle.mc_replica.specs.DumpFaults.{fault_after};

    ghost from_gives = { λ unfinished fault. fault ≡ fault_after unfinished };

    fn from(unfinished: Unfinished) -> DumpFault {
        match unfinished {
            Unfinished::Failed => DumpFault::Write,
            Unfinished::NoMemory => DumpFault::NoMemory,
        }
    }
}
