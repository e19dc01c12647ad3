//! Why a session at a prompt was broken off.

use thiserror::Error;

/// Why a session at a prompt was broken off.
#[derive(Clone, Copy, Debug, PartialEq, Eq, Error)]
pub enum PromptError {
    /// The lines failed.
    #[error("no line could be read")]
    LinesFailed,
    /// All lines together have more than 16 MiB.
    #[error("the lines are too long together")]
    TooLong,
    /// There was no memory for a line, or for the answer to one.
    #[error("no memory")]
    NoMemory,
    /// The output failed.
    #[error("the output failed")]
    SinkFailed,
}
