//! How a call to the outside ends where it does not succeed.

ghost use Rattle.std.specs.Prelude.{◌≡◌};
ghost use Rattle.tta_ports.specs.declared.error.ReadError.TheVariants.{NoMemory as read_no_memory};
ghost use Rattle.tta_ports.specs.declared.error.WriteError.TheVariants.{};
ghost use Rattle.tta_ports.specs.declared.error.WriteError.TheVariants.{NoMemory as write_no_memory};

use std::alloc::AllocError;
use thiserror::Error;

/// The outside did not take what it was handed.
#[derive(Clone, Copy, Debug, PartialEq, Eq, Error)]
#[error("the outside failed")]
pub struct Failed;

/// Why a file was not read.
#[derive(Clone, Copy, Debug, PartialEq, Eq, Error)]
pub enum ReadError {
    /// The file is missing, or the outside failed.
    #[error("the file could not be read")]
    Failed,
    /// There are more bytes than the limit. `count` is how many of them were read, which is above
    /// the limit.
    #[error("the file is too long: {count} bytes were read")]
    TooLong { count: u64 },
    /// There was no memory for the name or for the bytes.
    #[error("no memory")]
    NoMemory,
}

/// Why a file was not written.
#[derive(Clone, Copy, Debug, PartialEq, Eq, Error)]
pub enum WriteError {
    /// The outside failed. The file may hold a prefix of the bytes.
    #[error("the file could not be written")]
    Failed,
    /// There was no memory for the name or for the bytes. Nothing was written.
    #[error("no memory")]
    NoMemory,
}

impl From<AllocError> for ReadError {
    ghost from_gives = { λ _ e. e ≡ read_no_memory };

    fn from(_: AllocError) -> Self {
        ReadError::NoMemory
    }
}

impl From<AllocError> for WriteError {
    ghost from_gives = { λ _ e. e ≡ write_no_memory };

    fn from(_: AllocError) -> Self {
        WriteError::NoMemory
    }
}
