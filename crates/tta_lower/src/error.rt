//! Why a program has no register code.

ghost use Rattle.std.specs.Prelude.{◌≡◌};
ghost use Rattle.tta_lower.specs.declared.error.LowerError.TheVariants.{NoMemory};

use std::alloc::AllocError;
use thiserror::Error;

/// Why a program has no register code.
#[derive(Clone, Copy, Debug, PartialEq, Eq, Error)]
pub enum LowerError {
    /// The frames need more words than there are.
    #[error("the program needs {need} frame words, and there are {have}")]
    FrameFull { need: u32, have: u32 },
    /// There is no memory for the code.
    #[error("no memory")]
    NoMemory,
}

impl From<AllocError> for LowerError {
    ghost from_gives = { λ _ e. e ≡ NoMemory };

    fn from(_error: AllocError) -> LowerError {
        LowerError::NoMemory
    }
}
