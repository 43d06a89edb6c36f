ghost use Rattle.std.specs.Prelude.{◌≡◌};

use mc_bytes::NoMemory;
use mc_wire::Failed;
use std::alloc::AllocError;

/// Why a command did not do all that it was asked.
#[derive(Clone, Copy, Debug, PartialEq, Eq)]
pub enum Unfinished {
    /// The output failed.
    Failed,
    /// There was no memory.
    NoMemory,
}

impl From<Failed> for Unfinished {
    ghost use Rattle.mc_text.specs.declared.unfinished.Unfinished.TheVariants as unfinished;

    ghost from_gives = { λ _ error. error ≡ unfinished.Failed };

    fn from(_failure: Failed) -> Unfinished {
        Unfinished::Failed
    }
}

impl From<NoMemory> for Unfinished {
    ghost use Rattle.mc_text.specs.declared.unfinished.Unfinished.TheVariants as unfinished;

    ghost from_gives = { λ _ error. error ≡ unfinished.NoMemory };

    fn from(_refusal: NoMemory) -> Unfinished {
        Unfinished::NoMemory
    }
}

impl From<AllocError> for Unfinished {
    ghost use Rattle.mc_text.specs.declared.unfinished.Unfinished.TheVariants as unfinished;

    ghost from_gives = { λ _ error. error ≡ unfinished.NoMemory };

    fn from(_refusal: AllocError) -> Unfinished {
        Unfinished::NoMemory
    }
}
