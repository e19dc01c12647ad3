//! Why a program's text is refused.

ghost use Rattle.std.specs.Prelude.{◌≡◌};
ghost use Rattle.tta_parse.specs.declared.line_error.LineError.TheVariants.{NoMemory, Refused};
ghost use Rattle.tta_tac.specs.Refusals.{code_of};

use std::alloc::{AllocError, AllocFailed};
use thiserror::Error;

/// Why a line is refused.
#[derive(Clone, Copy, Debug, PartialEq, Eq, Error)]
pub enum Refusal {
    /// The words are none of the forms, or stand where they cannot.
    #[error("the words are none of the forms, or stand where they cannot")]
    Syntax,
    /// A branch to a label that its procedure has not.
    #[error("the procedure has no such label")]
    UnknownLabel,
    /// No unit offers the operation.
    #[error("no unit offers the operation")]
    UnknownOp,
    /// A call of a procedure that there is not, or of `main`.
    #[error("there is no such procedure, or it is main")]
    UnknownProc,
    /// The number of operands, arguments or parameters is wrong.
    #[error("the number of operands, arguments or parameters is wrong")]
    Arity,
    /// A procedure, label or parameter stands for the second time.
    #[error("a procedure, label or parameter stands for the second time")]
    Twice,
    /// A procedure leads back to itself by calls.
    #[error("a procedure leads back to itself by calls")]
    Recursive,
    /// There is no procedure `main`.
    #[error("there is no procedure main")]
    NoMain,
    /// Too many lines, parameters, arguments or variables.
    #[error("there are too many lines, parameters, arguments or variables")]
    TooMany,
}

impl Refusal {
    /// The number under which a user is reported.
    pub fn code(self) -> u8
        ensures { result ≡ code_of self }
    {
        match self {
            Refusal::Syntax => 20,
            Refusal::UnknownLabel => 21,
            Refusal::UnknownOp => 22,
            Refusal::UnknownProc => 23,
            Refusal::Arity => 24,
            Refusal::Twice => 25,
            Refusal::Recursive => 26,
            Refusal::NoMain => 27,
            Refusal::TooMany => 28,
        }
    }
}

/// Why no program was read.
#[derive(Clone, Copy, Debug, PartialEq, Eq, Error)]
pub enum TacError {
    /// The text is refused at this line, counted from 1, with this number; line 0 stands for the
    /// whole text.
    #[error("line {line} of the program is refused with code {code}")]
    Refused { line: u32, code: u8 },
    #[error("no memory")]
    NoMemory,
}

impl From<AllocError> for TacError {
    ghost use Rattle.std.specs.Prelude.{◌≡◌};
    ghost use Rattle.tta_tac.specs.declared.refusal.TacError.TheVariants.{NoMemory};

    ghost from_gives = { λ _ e. e ≡ NoMemory };

    fn from(_: AllocError) -> TacError {
        TacError::NoMemory
    }
}

impl<T: Drop> From<AllocFailed<T>> for TacError {
    ghost use Rattle.std.specs.Prelude.{◌≡◌};
    ghost use Rattle.tta_tac.specs.declared.refusal.TacError.TheVariants.{NoMemory};

    ghost from_gives = { λ _ e. e ≡ NoMemory };

    fn from(_: AllocFailed<T>) -> TacError {
        TacError::NoMemory
    }
}

/// Why a line could not be taken.
pub type LineError = tta_parse::LineError<Refusal>;

impl From<Refusal> for LineError {
    ghost from_gives = { λ refusal e. e ≡ Refused refusal };

    fn from(refusal: Refusal) -> LineError {
        LineError::Refused(refusal)
    }
}
