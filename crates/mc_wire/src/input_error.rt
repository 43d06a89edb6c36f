ghost use Rattle.std.specs.Prelude.{◌≡◌};
ghost use Rattle.mc_wire.specs.declared.input_error.InputError.TheVariants.{Failed as failed};
ghost use Rattle.mc_wire.specs.declared.input_error.InputError.TheVariants.{NoMemory as no_memory};

use crate::Failed;
use mc_bytes::NoMemory;
use std::alloc::AllocError;
use std::error::Error;
use std::fmt;

/// Why a whole input was not read.
#[derive(Clone, Copy, Debug, PartialEq, Eq)]
pub enum InputError {
    /// The source failed.
    Failed,
    /// There was no memory for what the source gave.
    NoMemory,
}

impl fmt::Display for InputError {
    ghost use Rattle.std.specs.Prelude.{Some};
    ghost use Rattle.mc_wire.specs.FaultText.{input_error_text};

    ghost output = { λ error. Some (input_error_text error) };

    fn fmt<W: fmt::Write>(&self, f: &mut fmt::Formatter<W>) -> fmt::Result {
        match self {
            InputError::Failed => write!(f, "{Failed}"),
            InputError::NoMemory => write!(f, "{NoMemory}"),
        }
    }
}

impl Error for InputError {}

impl From<Failed> for InputError {
    ghost from_gives = { λ _ error. error ≡ failed };

    fn from(_failure: Failed) -> InputError {
        InputError::Failed
    }
}

impl From<NoMemory> for InputError {
    ghost from_gives = { λ _ error. error ≡ no_memory };

    fn from(_refusal: NoMemory) -> InputError {
        InputError::NoMemory
    }
}

impl From<AllocError> for InputError {
    ghost from_gives = { λ _ error. error ≡ no_memory };

    fn from(_refusal: AllocError) -> InputError {
        InputError::NoMemory
    }
}
