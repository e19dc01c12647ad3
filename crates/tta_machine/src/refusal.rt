//! Why a machine's text is refused.

ghost use Rattle.std.specs.Prelude.{◌≡◌};
ghost use Rattle.tta_parse.specs.declared.line_error.LineError.TheVariants.{NoMemory, Refused};
ghost use Rattle.tta_machine.specs.Draft.{code_of};
ghost use Rattle.tta_machine.specs.declared.refusal.MachineError.TheVariants.{};
ghost use Rattle.tta_machine.specs.declared.refusal.MachineError.TheVariants.{NoMemory as no_memory};

use std::alloc::{AllocError, AllocFailed};
use thiserror::Error;

/// Why a line is refused, in the order in which a line's refusals are reported.
#[derive(Clone, Copy, Debug, PartialEq, Eq, Error)]
pub enum Refusal {
    /// The words are none of the forms.
    #[error("the words are none of the forms")]
    Syntax,
    /// A name is not declared as what its place asks.
    #[error("a name is not declared as what its place asks")]
    Unknown,
    /// Something stands for the second time.
    #[error("something stands for the second time")]
    Twice,
    /// A number is outside its range, or there are too many of something.
    #[error("a number is outside its range, or there are too many of something")]
    Range,
    /// A port or a part is missing.
    #[error("a port or a part is missing")]
    Missing,
    /// A template's buses have fewer than 32 bits together.
    #[error("the buses of a template have fewer than 32 bits together")]
    TooNarrow,
}

impl Refusal {
    /// The number that a user sees.
    pub fn code(self) -> u8
        ensures { result ≡ code_of self }
    {
        match self {
            Refusal::Syntax => 10,
            Refusal::Unknown => 11,
            Refusal::Twice => 12,
            Refusal::Range => 13,
            Refusal::Missing => 14,
            Refusal::TooNarrow => 15,
        }
    }
}

/// Why no machine was read.
#[derive(Clone, Copy, Debug, PartialEq, Eq, Error)]
pub enum MachineError {
    /// The text is refused at this line, counted from 1, with this number; line 0 stands for the
    /// whole text.
    #[error("line {line} of the machine is refused with code {code}")]
    Refused { line: u32, code: u8 },
    #[error("no memory")]
    NoMemory,
}

/// Why a line declares nothing.
pub type LineError = tta_parse::LineError<Refusal>;

impl From<Refusal> for LineError {
    ghost from_gives = { λ refusal e. e ≡ Refused refusal };

    fn from(refusal: Refusal) -> LineError {
        LineError::Refused(refusal)
    }
}

impl From<AllocError> for MachineError {
    ghost from_gives = { λ _ e. e ≡ no_memory };

    fn from(_: AllocError) -> MachineError {
        MachineError::NoMemory
    }
}
