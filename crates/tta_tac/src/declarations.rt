//! The variables of a line.

ghost use Rattle.std.specs.Prelude.{◌≡◌, ◌+◌, ◌≤◌, false, length, OnOk};
ghost use Rattle.tta_tac.specs.FirstPass.{vars_after, has_many_args};
ghost use Rattle.tta_tac.specs.FirstPass.{with_operand, with_operands, with_var};
ghost use Rattle.tta_tac.specs.Seen.{form_seen, operand_seen, operands_seen};

use crate::forms::{Form, Operand, Operands};
use crate::variables::{declare, declare_operand, declare_operands};
use std::alloc::{AllocError, Global};
use tta_parse::Names;

/// Gives the variables of a line their numbers, in the order in which its words stand. An `Err` is
/// out of memory.
pub fn declare_names(alloc: Global, vars: &mut Names<u32>, form: &Form) -> Result<(), AllocError>
    requires few { has_many_args (form_seen form.now) ≡ false }
    requires vars { length vars.old ≤ 4096 }
    ensures { OnOk result (vars.new ≡ vars_after vars.old (form_seen form.now)) }
{
    match *form {
        Form::Copy { d, s } => declare_assigned(alloc, vars, d, s),
        Form::Load { d, a } => declare_assigned(alloc, vars, d, a),
        Form::Apply { d, operands, .. } => {
            declare(alloc, vars, d)?;
            declare_given(alloc, vars, operands)
        }
        Form::Store { a, v } => declare_pair(alloc, vars, a, v),
        Form::If { a, b, .. } => declare_pair(alloc, vars, a, b),
        Form::When { a, b, d, s, .. } => {
            declare_pair(alloc, vars, a, b)?;
            declare_assigned(alloc, vars, d, s)
        }
        Form::Call {
            d: Some(d),
            args,
            ..
        } => {
            declare(alloc, vars, d)?;
            declare_operands(alloc, vars, args)
        }
        Form::Call { d: None, args, .. } => declare_operands(alloc, vars, args),
        Form::Put { v } => declare_operand(alloc, vars, v),
        Form::Take { d } => declare(alloc, vars, d),
        Form::Return { s: Some(s) } => declare_operand(alloc, vars, s),
        _ => Ok(()),
    }
}

/// Gives numbers to the variable that a line assigns, and to its operand's.
fn declare_assigned(
    alloc: Global,
    vars: &mut Names<u32>,
    d: &[u8],
    s: Operand,
) -> Result<(), AllocError>
    requires { length vars.old ≤ 5000 }
    ensures { OnOk result
        (vars.new ≡ with_operand (with_var vars.old d.now) (operand_seen s.entry)) }
{
    declare(alloc, vars, d)?;
    declare_operand(alloc, vars, s)?;
    Ok(())
}

/// Gives numbers to the variables among two operands.
fn declare_pair(
    alloc: Global,
    vars: &mut Names<u32>,
    a: Operand,
    b: Operand,
) -> Result<(), AllocError>
    requires { length vars.old ≤ 5000 }
    ensures ok { let first = with_operand vars.old (operand_seen a.entry) in
        OnOk result (vars.new ≡ with_operand first (operand_seen b.entry)) }
    ensures most { OnOk result (length vars.new ≤ length vars.old + 2) }
{
    declare_operand(alloc, vars, a)?;
    declare_operand(alloc, vars, b)?;
    Ok(())
}

/// Gives numbers to the variables among an operation's operands.
fn declare_given(alloc: Global, vars: &mut Names<u32>, operands: Operands) -> Result<(), AllocError>
    requires { length vars.old ≤ 5000 }
    ensures { OnOk result (vars.new ≡ with_operands vars.old (operands_seen operands.entry)) }
{
    match operands {
        Operands::One(b) => declare_operand(alloc, vars, b),
        Operands::Two(a, b) => declare_pair(alloc, vars, a, b),
    }
}
