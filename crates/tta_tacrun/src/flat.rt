//! Steps whose operands are cells.

ghost use Rattle.std.specs.Prelude.{◌≡◌, IfOk, map, true};
ghost use Rattle.std.specs.List.{list_all};
ghost use Rattle.tta_program.specs.Rules.{is_src};
ghost use Rattle.tta_tacrun.specs.Flat.{has_cells, has_variables, is_operand, said, src_of};
ghost use Rattle.tta_tacrun.specs.Run.{silent_part};

use std::alloc::{AllocError, Global};
use tta_ops::OpId;
use tta_program::{Rel, Src, Step};

/// An operand: the sum of a cell and a word, one of which is 0. So no step asks whether it is a
/// variable or a word.
#[derive(Clone, Copy)]
pub struct Operand {
    /// A variable, or the cell of 0 behind the last.
    pub cell: u32,
    pub word: u32,
}

/// A step that neither outputs nor takes a word, and neither begins nor ends a call.
#[derive(Clone, Copy)]
pub enum FlatStep {
    Copy {
        d: u32,
        s: Operand,
    },
    Apply {
        d: u32,
        op: OpId,
        a: Operand,
        b: Operand,
    },
    Load {
        d: u32,
        a: Operand,
    },
    Store {
        a: Operand,
        v: Operand,
    },
    If {
        rel: Rel,
        a: Operand,
        b: Operand,
        to: u32,
    },
    Goto {
        to: u32,
    },
    When {
        rel: Rel,
        a: Operand,
        b: Operand,
        d: u32,
        s: Operand,
    },
    /// Any other step.
    Loud,
}

/// An operand of a procedure with so many variables.
fn operand_of(size: u32, s: Src) -> Operand
    requires { is_src size s ≡ true }
    ensures means { src_of size result ≡ s }
    ensures within { is_operand size result ≡ true }
{
    match s {
        Src::Var(x) => Operand { cell: x, word: 0 },
        Src::Word(word) => Operand { cell: size, word },
    }
}

/// A step of a procedure with so many variables.
pub fn flat_of(size: u32, step: &Step) -> FlatStep
    requires { has_variables size step.now ≡ true }
    ensures said { said size result ≡ silent_part step.now }
    ensures within { has_cells size result ≡ true }
{
    match step {
        Step::Copy { d, s } => FlatStep::Copy {
            d: *d,
            s: operand_of(size, *s),
        },
        Step::Apply { d, op, a, b } => FlatStep::Apply {
            d: *d,
            op: *op,
            a: operand_of(size, *a),
            b: operand_of(size, *b),
        },
        Step::Load { d, a } => FlatStep::Load {
            d: *d,
            a: operand_of(size, *a),
        },
        Step::Store { a, v } => FlatStep::Store {
            a: operand_of(size, *a),
            v: operand_of(size, *v),
        },
        Step::If { rel, a, b, to } => FlatStep::If {
            rel: *rel,
            a: operand_of(size, *a),
            b: operand_of(size, *b),
            to: *to,
        },
        Step::Goto { to } => FlatStep::Goto { to: *to },
        Step::When { rel, a, b, d, s } => FlatStep::When {
            rel: *rel,
            a: operand_of(size, *a),
            b: operand_of(size, *b),
            d: *d,
            s: operand_of(size, *s),
        },
        _ => FlatStep::Loud,
    }
}

/// The steps of a procedure with so many variables.
pub fn flat_steps(alloc: Global, size: u32, steps: &[Step]) -> Result<Vec<FlatStep>, AllocError>
    requires { list_all (has_variables size) steps.now ≡ true }
    ensures said { IfOk result (λ v. map (said size) v.items ≡ map silent_part steps.now) }
    ensures within { IfOk result (λ v. list_all (has_cells size) v.items ≡ true) }
{
    let mut flat = Vec::with_capacity(alloc, steps.len())?;
    for step in steps {
        flat.push(flat_of(size, step))?;
    }
    Ok(flat)
}
