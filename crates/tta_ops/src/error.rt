//! Why units are refused.

ghost use Rattle.std.specs.Prelude.{◌≡◌};
ghost use Rattle.tta_ops.specs.declared.error.OpsError.TheVariants.{NoMemory};

use std::alloc::AllocError;
use thiserror::Error;

/// Why units do not make a set. `unit` and `index` give the operation, both counted from 0.
#[derive(Clone, Copy, Debug, PartialEq, Eq, Error)]
pub enum OpsError {
    /// An operation before this one has its name.
    #[error("operation {index} of unit {unit} has the name of one before it")]
    Twice { unit: usize, index: usize },
    /// The operation's name is a word that texts keep for themselves.
    #[error("the name of operation {index} of unit {unit} is reserved")]
    Reserved { unit: usize, index: usize },
    /// There is no memory for the set.
    #[error("no memory")]
    NoMemory,
}

impl From<AllocError> for OpsError {
    ghost from_gives = { λ _ e. e ≡ NoMemory };

    fn from(_error: AllocError) -> OpsError {
        OpsError::NoMemory
    }
}
