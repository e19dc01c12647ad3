//! Why links are refused.

ghost use Rattle.std.specs.Prelude.{◌≡◌};
ghost use Rattle.tta_topology.specs.Refusals.{code_of};
ghost use Rattle.tta_topology.specs.declared.error.LinksError.TheVariants.{NoMemory};

use std::alloc::{AllocError, AllocFailed};
use thiserror::Error;

/// Why a line of links is refused.
#[derive(Clone, Copy, Debug, PartialEq, Eq, Error)]
pub enum Refusal {
    /// The line is not blank and is no `link` line.
    #[error("the line is no link")]
    Syntax,
    /// One of its numbers is no core.
    #[error("a number is no core")]
    Range,
    /// The first core feeds one already, or the second is fed already.
    #[error("a core is joined already")]
    Twice,
}

impl Refusal {
    /// The number of the refusal.
    pub fn code(self) -> u8
        ensures { result ≡ code_of self }
    {
        match self {
            Refusal::Syntax => 82,
            Refusal::Range => 83,
            Refusal::Twice => 84,
        }
    }
}

/// Why no links were read.
#[derive(Clone, Copy, Debug, PartialEq, Eq, Error)]
pub enum LinksError {
    /// The first line that is refused, counted from 1, and the number of its refusal.
    #[error("line {line} of the links is refused with code {code}")]
    Refused { line: u32, code: u8 },
    #[error("no memory")]
    NoMemory,
}

impl From<AllocError> for LinksError {
    ghost from_gives = { λ _ e. e ≡ NoMemory };

    fn from(_: AllocError) -> LinksError {
        LinksError::NoMemory
    }
}

impl<T: Drop> From<AllocFailed<T>> for LinksError {
    ghost from_gives = { λ _ e. e ≡ NoMemory };

    fn from(_: AllocFailed<T>) -> LinksError {
        LinksError::NoMemory
    }
}
