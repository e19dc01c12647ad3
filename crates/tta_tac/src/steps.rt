//! The step of a line.

ghost use Rattle.std.specs.Prelude.{◌≡◌, ◌≤◌, false, Some, option_map, length, IfOk};
ghost use Rattle.tta_ops.specs.Set.{stated};
ghost use Rattle.tta_tac.specs.Draft.{step_seen, Plain, IfTo, CallTo};
ghost use Rattle.tta_tac.specs.FirstPass.{step_of, apply_step, has_many_args, is_end};
ghost use Rattle.tta_tac.specs.FirstPass.{var_number, src_of, srcs_of};
ghost use Rattle.tta_tac.specs.Seen.{form_seen, operand_seen, operands_seen, operands_in};

use crate::draft::NamedStep;
use crate::forms::{Form, Operand, Operands};
use crate::operations::op_named;
use crate::variables::{args_of, count_operands, number_of, src_of};
use std::alloc::{AllocError, Global};
use tta_ops::UnitSet;
use tta_parse::{Names, Word};
use tta_program::{Rel, Src, Step};

/// Whether a line is a call with more than eight arguments.
pub fn has_many_args(form: &Form) -> bool
    ensures { result ≡ has_many_args (form_seen form.now) }
{
    match *form {
        Form::Call { args, .. } => count_operands(args) > 8,
        _ => false,
    }
}

/// Whether a line is `end`.
pub fn is_end(form: &Form) -> bool
    ensures { result ≡ is_end (form_seen form.now) }
{
    match *form {
        Form::End => true,
        _ => false,
    }
}

/// The step of a line whose variables were declared, and `None` for the lines that are no step. An
/// `Err` is out of memory.
pub fn step_of<'t>(
    alloc: Global,
    units: &UnitSet,
    vars: &Names<u32>,
    form: &Form<'_, 't>,
) -> Result<Option<NamedStep<'t>>, AllocError>
    requires few { has_many_args (form_seen form.now) ≡ false }
    ensures { IfOk result (λ step. option_map step_seen step
        ≡ step_of (stated unit_meaning units.now) vars.now (form_seen form.now)) }
{
    let step = match *form {
        Form::Proc { .. } | Form::Data { .. } | Form::Label { .. } => return Ok(None),
        Form::If { rel, a, b, label } => return Ok(Some(if_step(vars, rel, a, b, label))),
        Form::Goto { label } => return Ok(Some(NamedStep::Goto { label })),
        Form::Call { d, callee, args } => {
            return Ok(Some(call_step(alloc, vars, d, callee, args)?));
        }
        Form::Copy { d, s } => copy_step(vars, d, s),
        Form::Load { d, a } => load_step(vars, d, a),
        Form::Apply { d, op, operands } => apply_step(units, vars, d, op, operands),
        Form::Store { a, v } => store_step(vars, a, v),
        Form::Put { v } => Step::Put { v: src_of(vars, v) },
        Form::Take { d } => Step::Take {
            d: number_of(vars, d),
        },
        Form::When { rel, a, b, d, s } => when_step(vars, rel, a, b, d, s),
        Form::Return { s } => return_step(vars, s),
        Form::Halt => Step::Halt,
        Form::End => Step::End,
    };
    Ok(Some(NamedStep::Plain(step)))
}

/// The step of `d = s`.
fn copy_step(vars: &Names<u32>, d: &[u8], s: Operand) -> Step
    ensures { result
        ≡ Step.Copy (var_number vars.now d.now) (src_of vars.now (operand_seen s.entry)) }
{
    let d = number_of(vars, d);
    let s = src_of(vars, s);
    Step::Copy { d, s }
}

/// The step of `d = load a`.
fn load_step(vars: &Names<u32>, d: &[u8], a: Operand) -> Step
    ensures { result
        ≡ Step.Load (var_number vars.now d.now) (src_of vars.now (operand_seen a.entry)) }
{
    let d = number_of(vars, d);
    let a = src_of(vars, a);
    Step::Load { d, a }
}

/// The step of `store a v`.
fn store_step(vars: &Names<u32>, a: Operand, v: Operand) -> Step
    ensures { let address = src_of vars.now (operand_seen a.entry) in
        result ≡ Step.Store address (src_of vars.now (operand_seen v.entry)) }
{
    let a = src_of(vars, a);
    let v = src_of(vars, v);
    Step::Store { a, v }
}

/// The step of `d = OPERATION a b`; an operation of one word has it as the second.
fn apply_step(units: &UnitSet, vars: &Names<u32>, d: &[u8], op: &[u8], operands: Operands) -> Step
    ensures { Plain result ≡ apply_step (stated unit_meaning units.now) vars.now
        (var_number vars.now d.now) op.now (operands_seen operands.entry) }
{
    let d = number_of(vars, d);
    let op = op_named(units, op);
    match operands {
        Operands::One(b) => Step::Apply {
            d,
            op,
            a: Src::Word(0),
            b: src_of(vars, b),
        },
        Operands::Two(a, b) => Step::Apply {
            d,
            op,
            a: src_of(vars, a),
            b: src_of(vars, b),
        },
    }
}

/// The step of `if REL a b goto NAME`, its label still a name.
fn if_step<'t>(
    vars: &Names<u32>,
    rel: Rel,
    a: Operand,
    b: Operand,
    label: &'t [u8],
) -> NamedStep<'t>
    ensures { let left = src_of vars.now (operand_seen a.entry) in
        let right = src_of vars.now (operand_seen b.entry) in
        step_seen result ≡ IfTo rel left right label.now }
{
    let a = src_of(vars, a);
    let b = src_of(vars, b);
    NamedStep::If { rel, a, b, label }
}

/// The step of `when REL a b d = s`.
fn when_step(vars: &Names<u32>, rel: Rel, a: Operand, b: Operand, d: &[u8], s: Operand) -> Step
    ensures { let left = src_of vars.now (operand_seen a.entry) in
        let right = src_of vars.now (operand_seen b.entry) in
        let value = src_of vars.now (operand_seen s.entry) in
        result ≡ Step.When rel left right (var_number vars.now d.now) value }
{
    let a = src_of(vars, a);
    let b = src_of(vars, b);
    let d = number_of(vars, d);
    let s = src_of(vars, s);
    Step::When { rel, a, b, d, s }
}

/// The step of a call, its procedure still a name. An `Err` is out of memory.
fn call_step<'t>(
    alloc: Global,
    vars: &Names<u32>,
    d: Option<&[u8]>,
    callee: &'t [u8],
    args: &[Word],
) -> Result<NamedStep<'t>, AllocError>
    requires { length (operands_in args.now) ≤ 8 }
    ensures { let kept = option_map (λ d. var_number vars.now d.now) d.entry in
        let srcs = srcs_of vars.now (operands_in args.now) in
        IfOk result (λ step. step_seen step ≡ CallTo kept callee.now srcs) }
{
    let d = match d {
        Some(d) => Some(number_of(vars, d)),
        None => None,
    };
    let args = args_of(alloc, vars, args)?;
    Ok(NamedStep::Call { d, callee, args })
}

/// The step of `return`, with a value or without one.
fn return_step(vars: &Names<u32>, s: Option<Operand>) -> Step
    ensures { result ≡ Step.Return (option_map (λ s. src_of vars.now (operand_seen s)) s.entry) }
{
    match s {
        Some(s) => Step::Return {
            s: Some(src_of(vars, s)),
        },
        None => Step::Return { s: None },
    }
}
