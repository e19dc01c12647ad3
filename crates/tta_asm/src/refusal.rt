//! Why an assembly text is refused.

ghost use Rattle.std.specs.Prelude.{◌≡◌};
ghost use Rattle.tta_asm.specs.Refusals.{code_of, told};
ghost use Rattle.tta_asm.specs.declared.refusal.AsmError.TheVariants.{NoMemory};

use std::alloc::{AllocError, AllocFailed};
use thiserror::Error;

/// Why an assembly text is refused.
#[derive(Clone, Copy, Debug, PartialEq, Eq, Error)]
pub enum AsmRefusal {
    /// A token does not fit the form, or the text ends early.
    #[error("a token does not fit the form, or the text ends early")]
    Syntax,
    /// The machine has no such source, destination or template, or the guard is no register of a
    /// file of width 1.
    #[error("the machine has no such source, destination, template or guard")]
    Unknown,
    /// The bus does not join the ends, or the guard is not written for the bus.
    #[error("the bus does not join the ends, or has not the guard")]
    NoConnection,
    /// The machine cannot carry out the instruction for another cause.
    #[error("the machine cannot carry out the instruction")]
    Illegal,
    /// The number of slots is not the number of buses.
    #[error("the number of slots is not the number of buses")]
    Slots,
    /// A name that is used as a value is no label, or a label is there already.
    #[error("a name is no label, or a label is there already")]
    Label,
    /// An immediate does not fit the bus, or there are more instructions than addresses.
    #[error("an immediate does not fit the bus, or there are too many instructions")]
    Range,
    /// The address of a datum is not one of the data space, or not above the one before it.
    #[error("an address of data is outside the data space, or does not rise")]
    Data,
}

/// Why no code was read.
#[derive(Clone, Copy, Debug, PartialEq, Eq, Error)]
pub enum AsmError {
    /// The text is refused at this line, counted from 1, with this number.
    #[error("line {line} of the assembly is refused with code {code}")]
    Refused { line: u32, code: u8 },
    #[error("no memory")]
    NoMemory,
}

impl AsmRefusal {
    /// The number that a user is given.
    pub fn code(self) -> u8
        ensures { result ≡ code_of self }
    {
        match self {
            AsmRefusal::Syntax => 50,
            AsmRefusal::Unknown => 51,
            AsmRefusal::NoConnection => 52,
            AsmRefusal::Illegal => 53,
            AsmRefusal::Slots => 54,
            AsmRefusal::Label => 55,
            AsmRefusal::Range => 56,
            AsmRefusal::Data => 57,
        }
    }

    /// The refusal at this line, as it is reported.
    pub fn at(self, line: u32) -> AsmError
        ensures { result ≡ told (line, self) }
    {
        AsmError::Refused {
            line,
            code: self.code(),
        }
    }
}

impl From<AllocError> for AsmError {
    ghost from_gives = { λ _ e. e ≡ NoMemory };

    fn from(_: AllocError) -> AsmError {
        AsmError::NoMemory
    }
}

impl<T: Drop> From<AllocFailed<T>> for AsmError {
    ghost from_gives = { λ _ e. e ≡ NoMemory };

    fn from(_: AllocFailed<T>) -> AsmError {
        AsmError::NoMemory
    }
}
