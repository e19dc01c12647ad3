//! Why a line could not be taken.

ghost use Rattle.std.specs.Prelude.{◌≡◌};
ghost use Rattle.tta_parse.specs.declared.line_error.LineError.TheVariants.{NoMemory};

use std::alloc::{AllocError, AllocFailed};

/// Why a line of a text could not be taken: its reader refuses it, or memory is short.
#[derive(Clone, Copy)]
pub enum LineError<R> {
    Refused(R),
    NoMemory,
}

impl<R> From<AllocError> for LineError<R> {
    ghost from_gives = { λ _ e. e ≡ NoMemory };

    fn from(_: AllocError) -> LineError<R> {
        LineError::NoMemory
    }
}

impl<R, T: Drop> From<AllocFailed<T>> for LineError<R> {
    ghost from_gives = { λ _ e. e ≡ NoMemory };

    fn from(_: AllocFailed<T>) -> LineError<R> {
        LineError::NoMemory
    }
}
