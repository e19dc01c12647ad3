//! Why no line has come.

ghost use Rattle.std.specs.Prelude.{◌≡◌};
ghost use Rattle.tta_stdin.specs.declared.error.LineError.TheVariants.{NoMemory as no_memory};

use std::alloc::AllocError;
use thiserror::Error;

/// Why no line has come.
#[derive(Clone, Copy, Debug, PartialEq, Eq, Error)]
pub enum LineError {
    /// The outside failed.
    #[error("no line could be read")]
    Failed,
    /// A line has more bytes than the limit, its newline among them.
    #[error("the line is too long")]
    TooLong,
    /// There was no memory for the line.
    #[error("no memory")]
    NoMemory,
}

impl From<AllocError> for LineError {
    ghost from_gives = { λ _ e. e ≡ no_memory };

    fn from(_: AllocError) -> Self {
        LineError::NoMemory
    }
}
