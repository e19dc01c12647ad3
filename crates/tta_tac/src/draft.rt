//! A program while its text is read.

use crate::initial::InitialData;
use tta_list::Items;
use tta_parse::Names;
use tta_program::{Args, Rel, Src, Step};

/// A step whose label or callee is still a name. The texts are those of the program.
#[derive(Drop)]
pub enum NamedStep<'t> {
    /// A step that names nothing.
    Plain(Step),
    /// A branch where a condition holds.
    If {
        rel: Rel,
        a: Src,
        b: Src,
        label: &'t [u8],
    },
    Goto {
        label: &'t [u8],
    },
    Call {
        d: Option<u32>,
        callee: &'t [u8],
        args: Args,
    },
}

/// A procedure while it is read.
#[derive(Drop)]
pub struct DraftProc<'t> {
    /// The line of its `proc`.
    pub line: u32,
    pub params: u32,
    /// Its variables and their numbers, the parameters first.
    pub vars: Names<u32>,
    /// Its labels and the steps that they name.
    pub labels: Names<u32>,
    pub steps: Items<NamedStep<'t>>,
    /// The line of each step.
    pub lines: Items<u32>,
}

/// What the lines read so far say.
#[derive(Drop)]
pub struct Draft<'t> {
    /// The procedures that were begun, by name, and their numbers.
    pub names: Names<u32>,
    /// The procedures that have ended.
    pub procs: Items<DraftProc<'t>>,
    /// The procedure that has begun and not ended.
    pub begun: Option<DraftProc<'t>>,
    /// The words of data.
    pub init: InitialData,
    /// How many lines were read that are not blank.
    pub lines: u32,
}
