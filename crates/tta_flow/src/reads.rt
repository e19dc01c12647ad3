//! The variables that a step reads.

ghost use Rattle.std.specs.Prelude.{◌||◌};
ghost use Rattle.std.specs.List.{list_any};
ghost use Rattle.tta_flow.specs.Growth.{Sets};
ghost use Rattle.tta_flow.specs.Steps.{is_var, reads};

use crate::bits::BitRow;
use tta_program::{Src, Step};

/// Sets the bits of the variables that a step reads, as far as there is room.
pub fn add_reads(row: &mut BitRow, step: &Step)
    ensures { Sets (reads step.now) row.old row.new }
{
    match step {
        Step::Copy { s, .. } => add_var(row, s),
        Step::Apply { a, b, .. } => add_vars(row, a, b),
        Step::Load { a, .. } => add_var(row, a),
        Step::Store { a, v } => add_vars(row, a, v),
        Step::Put { v } => add_var(row, v),
        Step::If { a, b, .. } => add_vars(row, a, b),
        Step::When { a, b, d, s, .. } => {
            add_vars(row, a, b);
            add_var(row, s);
            row.set_within(*d as usize);
        }
        Step::Invoke { args, .. } => add_all(row, args.as_slice()),
        Step::Return { s: Some(s) } => add_var(row, s),
        _ => (),
    }
}

/// Adds the variables among operands.
fn add_all(row: &mut BitRow, operands: &[Src])
    ensures { Sets (λ x. list_any (λ s. is_var s x) operands.now) row.old row.new }
{
    for operand in operands {
        add_var(row, operand);
    }
}

/// Adds the variables among two operands.
fn add_vars(row: &mut BitRow, a: &Src, b: &Src)
    ensures { Sets (λ x. is_var a.now x || is_var b.now x) row.old row.new }
{
    add_var(row, a);
    add_var(row, b);
}

/// Sets the bit of a variable, where the operand is one.
fn add_var(row: &mut BitRow, operand: &Src)
    ensures { Sets (is_var operand.now) row.old row.new }
{
    match operand {
        Src::Var(x) => row.set_within(*x as usize),
        Src::Word(_) => (),
    }
}
