//! The steps of a program.

ghost use Rattle.std.specs.Prelude.{◌≡◌, IfOk};

use crate::args::Args;
use crate::operand::{Rel, Src};
use std::alloc::{AllocError, Global};
use tta_ops::OpId;

/// A step of a procedure. Variables and target steps are those of the procedure, counted from 0.
#[derive(Drop)]
pub enum Step {
    /// `d = s`
    Copy {
        d: u32,
        s: Src,
    },
    /// `d = OPERATION a b`; an operation of one word has it in `b`, and `a` is the word 0.
    Apply {
        d: u32,
        op: OpId,
        a: Src,
        b: Src,
    },
    /// `d = load a`: the data word at address `a`.
    Load {
        d: u32,
        a: Src,
    },
    /// `store a v`: the data word at address `a` becomes `v`.
    Store {
        a: Src,
        v: Src,
    },
    /// `out v`
    Put {
        v: Src,
    },
    /// `d = in`: the next word of the input, for which a run waits where none is left.
    Take {
        d: u32,
    },
    /// `if REL a b goto to`
    If {
        rel: Rel,
        a: Src,
        b: Src,
        to: u32,
    },
    /// `goto to`
    Goto {
        to: u32,
    },
    /// `when REL a b d = s`: a copy where the condition holds.
    When {
        rel: Rel,
        a: Src,
        b: Src,
        d: u32,
        s: Src,
    },
    /// `call callee args`, and `d = call callee args` where the returned value is kept.
    Invoke {
        d: Option<u32>,
        callee: u32,
        args: Args,
    },
    /// `return` and `return s`
    Return {
        s: Option<Src>,
    },
    /// `halt`
    Halt,
    /// `end`: the last step of a procedure; it returns 0.
    End,
}

impl Step {
    /// The same step once more. An `Err` is out of memory: a call's arguments take some.
    pub fn copy(&self, alloc: Global) -> Result<Self, AllocError>
        ensures { IfOk result (λ s. s ≡ self.now) }
    {
        Ok(match self {
            Step::Copy { d, s } => Step::Copy { d: *d, s: *s },
            Step::Apply { d, op, a, b } => Step::Apply {
                d: *d,
                op: *op,
                a: *a,
                b: *b,
            },
            Step::Load { d, a } => Step::Load { d: *d, a: *a },
            Step::Store { a, v } => Step::Store { a: *a, v: *v },
            Step::Put { v } => Step::Put { v: *v },
            Step::Take { d } => Step::Take { d: *d },
            Step::If { rel, a, b, to } => Step::If {
                rel: *rel,
                a: *a,
                b: *b,
                to: *to,
            },
            Step::Goto { to } => Step::Goto { to: *to },
            Step::When { rel, a, b, d, s } => Step::When {
                rel: *rel,
                a: *a,
                b: *b,
                d: *d,
                s: *s,
            },
            Step::Invoke { d, callee, args } => Step::Invoke {
                d: *d,
                callee: *callee,
                args: args.copy(alloc)?,
            },
            Step::Return { s } => Step::Return { s: *s },
            Step::Halt => Step::Halt,
            Step::End => Step::End,
        })
    }
}
