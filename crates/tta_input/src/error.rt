//! Why a file gives no memory.

ghost use Rattle.std.specs.Prelude.{◌≡◌};
ghost use Rattle.tta_input.specs.declared.error.InputError.TheVariants.{NoMemory};

use std::alloc::{AllocError, AllocFailed};
use thiserror::Error;

/// Why no input was read.
#[derive(Clone, Copy, Debug, PartialEq, Eq, Error)]
pub enum InputError {
    /// This line, counted from 1, is the first that is no word, or the first past the end of the
    /// data space.
    #[error("line {line} of the input is refused")]
    Refused { line: u32 },
    #[error("no memory")]
    NoMemory,
}

impl From<AllocError> for InputError {
    ghost from_gives = { λ _ e. e ≡ NoMemory };

    fn from(_: AllocError) -> InputError {
        InputError::NoMemory
    }
}

impl<T: Drop> From<AllocFailed<T>> for InputError {
    ghost from_gives = { λ _ e. e ≡ NoMemory };

    fn from(_: AllocFailed<T>) -> InputError {
        InputError::NoMemory
    }
}
