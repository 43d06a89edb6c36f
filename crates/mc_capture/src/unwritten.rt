ghost use Rattle.std.specs.Prelude.{◌≡◌};

use crate::CaptureEnd;
use mc_bytes::NoMemory;
use mc_wire::Failed;
use std::alloc::AllocError;

/// Why lines were not all written.
#[derive(Clone, Copy)]
pub(crate) enum Unwritten {
    /// The sink failed.
    Failed,
    /// There was no memory.
    NoMemory,
}

impl From<Failed> for Unwritten {
    ghost use Rattle.mc_capture.specs.declared.unwritten.Unwritten.TheVariants as unwritten;

    ghost from_gives = { λ _ error. error ≡ unwritten.Failed };

    fn from(_failure: Failed) -> Unwritten {
        Unwritten::Failed
    }
}

impl From<NoMemory> for Unwritten {
    ghost use Rattle.mc_capture.specs.declared.unwritten.Unwritten.TheVariants as unwritten;

    ghost from_gives = { λ _ error. error ≡ unwritten.NoMemory };

    fn from(_refusal: NoMemory) -> Unwritten {
        Unwritten::NoMemory
    }
}

impl From<AllocError> for Unwritten {
    ghost use Rattle.mc_capture.specs.declared.unwritten.Unwritten.TheVariants as unwritten;

    ghost from_gives = { λ _ error. error ≡ unwritten.NoMemory };

    fn from(_refusal: AllocError) -> Unwritten {
        Unwritten::NoMemory
    }
}

/// Why a capture was not all shown, where its lines were not all written.
impl From<Unwritten> for CaptureEnd {
    ghost use Rattle.mc_capture.specs.Gathering.{end_of};

    ghost from_gives = { λ unwritten end. end ≡ end_of unwritten };

    fn from(unwritten: Unwritten) -> CaptureEnd {
        match unwritten {
            Unwritten::Failed => CaptureEnd::Write,
            Unwritten::NoMemory => CaptureEnd::NoMemory,
        }
    }
}
