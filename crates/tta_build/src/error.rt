//! Why no code is built.

ghost use Rattle.std.specs.Prelude.{◌≡◌};
ghost use Rattle.tta_build.specs.declared.error.BuildError.TheVariants.{NoMemory};
ghost use Rattle.tta_build.specs.Errors.{of_lower};

use std::alloc::{AllocError, AllocFailed};
use thiserror::Error;
use tta_lower::LowerError;

/// Why no code is built for a machine and a program.
#[derive(Clone, Copy, Debug, PartialEq, Eq, Error)]
pub enum BuildError {
    /// The machine breaks this rule of coverage, from 1 to 5, and keeps those before it.
    #[error("the machine breaks rule {rule} of coverage")]
    NotCovered { rule: u8 },
    /// The first step in the order of the text that needs an operation which no usable unit offers
    /// stands in this line.
    #[error("no usable unit offers what line {line} needs")]
    NoUnit { line: u32 },
    /// The program needs more frame words than the machine has.
    #[error("the program needs {need} frame words, and the machine has {have}")]
    FrameFull { need: u32, have: u32 },
    /// The code has more instructions than the machine has addresses. It is no longer than the plain
    /// code, which so does not fit either.
    #[error("the code has {words} instructions, and the machine has {have} addresses")]
    CodeFull { words: u64, have: u32 },
    /// Out of memory.
    #[error("no memory")]
    NoMemory,
}

impl From<AllocError> for BuildError {
    ghost from_gives = { λ _ e. e ≡ NoMemory };

    fn from(_: AllocError) -> BuildError {
        BuildError::NoMemory
    }
}

impl<T: Drop> From<AllocFailed<T>> for BuildError {
    ghost from_gives = { λ _ e. e ≡ NoMemory };

    fn from(_: AllocFailed<T>) -> BuildError {
        BuildError::NoMemory
    }
}

impl From<LowerError> for BuildError {
    ghost from_gives = { λ e b. b ≡ of_lower e };

    fn from(error: LowerError) -> BuildError {
        match error {
            LowerError::FrameFull { need, have } => BuildError::FrameFull { need, have },
            LowerError::NoMemory => BuildError::NoMemory,
        }
    }
}
