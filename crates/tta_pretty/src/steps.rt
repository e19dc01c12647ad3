//! The line of a step.

ghost use Rattle.std.specs.Prelude.{◌≡◌, ◌++◌, ◌∷◌, [], ◌<◌, true, codes, length, OnOk};
ghost use Rattle.tta_ops.specs.Set.{stated};
ghost use Rattle.tta_program.specs.Over.{is_over};
ghost use Rattle.tta_pretty.specs.Printed.{Words, line_text, step_line, word, equals, var_name, label_name, proc_name, src_word, src_words, rel_name, op_name, operand_words};
ghost use Rattle.std.specs.Prelude.{get_or};
ghost use Rattle.tta_pretty.specs.Printing.{spaced_after};

use crate::words::{push_assign, push_condition, push_label, push_next_src, push_proc, push_srcs};
use std::alloc::AllocError;
use tta_ops::{OpId, UnitSet};
use tta_program::{Rel, Src, Step};

/// `d = s`
fn push_copy(out: &mut Vec<u8>, d: u32, s: Src) -> Result<(), AllocError>
    ensures { OnOk result (out.new.items ≡ out.old.items
        ++ line_text (Words (word (var_name d) ∷ equals ∷ src_word s ∷ []))) }
{
    push_assign(out, d)?;
    push_next_src(out, s)?;
    out.extend_from_slice(b"\n")
}

/// Puts the operands of an operation at the end, with a blank before each.
fn push_operands(out: &mut Vec<u8>, arity: u8, a: Src, b: Src) -> Result<(), AllocError>
    ensures { OnOk result (out.new.items ≡ out.old.items
        ++ spaced_after (operand_words arity a b)) }
{
    if arity == 2 {
        push_next_src(out, a)?;
    }
    push_next_src(out, b)
}

/// `d = load a`
fn push_load(out: &mut Vec<u8>, d: u32, a: Src) -> Result<(), AllocError>
    ensures { OnOk result (out.new.items ≡ out.old.items
        ++ line_text (Words (word (var_name d) ∷ equals ∷ word (codes "load") ∷ src_word a ∷ []))) }
{
    push_assign(out, d)?;
    out.extend_from_slice(b" load")?;
    push_next_src(out, a)?;
    out.extend_from_slice(b"\n")
}

/// `d = in`
fn push_take(out: &mut Vec<u8>, d: u32) -> Result<(), AllocError>
    ensures { OnOk result (out.new.items ≡ out.old.items
        ++ line_text (Words (word (var_name d) ∷ equals ∷ word (codes "in") ∷ []))) }
{
    push_assign(out, d)?;
    out.extend_from_slice(b" in\n")
}

/// `store a v`
fn push_store(out: &mut Vec<u8>, a: Src, v: Src) -> Result<(), AllocError>
    ensures { OnOk result (out.new.items ≡ out.old.items
        ++ line_text (Words (word (codes "store") ∷ src_word a ∷ src_word v ∷ []))) }
{
    out.extend_from_slice(b"store")?;
    push_next_src(out, a)?;
    push_next_src(out, v)?;
    out.extend_from_slice(b"\n")
}

/// `out v`
fn push_put(out: &mut Vec<u8>, v: Src) -> Result<(), AllocError>
    ensures { OnOk result (out.new.items ≡ out.old.items
        ++ line_text (Words (word (codes "out") ∷ src_word v ∷ []))) }
{
    out.extend_from_slice(b"out")?;
    push_next_src(out, v)?;
    out.extend_from_slice(b"\n")
}

/// `goto LABEL`
fn push_goto(out: &mut Vec<u8>, to: u32) -> Result<(), AllocError>
    ensures { OnOk result (out.new.items ≡ out.old.items
        ++ line_text (Words (word (codes "goto") ∷ word (label_name to) ∷ []))) }
{
    out.extend_from_slice(b"goto ")?;
    push_label(out, to)?;
    out.extend_from_slice(b"\n")
}

/// `if REL a b goto LABEL`
fn push_if(out: &mut Vec<u8>, rel: Rel, a: Src, b: Src, to: u32) -> Result<(), AllocError>
    ensures { OnOk result (out.new.items ≡ out.old.items
        ++ line_text (Words (word (codes "if") ∷ word (rel_name rel) ∷ src_word a ∷ src_word b
        ∷ word (codes "goto") ∷ word (label_name to) ∷ []))) }
{
    out.extend_from_slice(b"if")?;
    push_condition(out, rel, a, b)?;
    out.extend_from_slice(b" ")?;
    push_goto(out, to)
}

/// `when REL a b d = s`
fn push_when(out: &mut Vec<u8>, rel: Rel, a: Src, b: Src, d: u32, s: Src) -> Result<(), AllocError>
    ensures { OnOk result (out.new.items ≡ out.old.items
        ++ line_text (Words (word (codes "when") ∷ word (rel_name rel) ∷ src_word a ∷ src_word b
        ∷ word (var_name d) ∷ equals ∷ src_word s ∷ []))) }
{
    out.extend_from_slice(b"when")?;
    push_condition(out, rel, a, b)?;
    out.extend_from_slice(b" ")?;
    push_copy(out, d, s)
}

/// `return s`
fn push_return(out: &mut Vec<u8>, s: Src) -> Result<(), AllocError>
    ensures { OnOk result (out.new.items ≡ out.old.items
        ++ line_text (Words (word (codes "return") ∷ src_word s ∷ []))) }
{
    out.extend_from_slice(b"return")?;
    push_next_src(out, s)?;
    out.extend_from_slice(b"\n")
}

/// `call NAME s ..`
fn push_call(out: &mut Vec<u8>, main: u32, callee: u32, args: &[Src]) -> Result<(), AllocError>
    ensures { OnOk result (out.new.items ≡ out.old.items
        ++ line_text (Words (word (codes "call") ∷ word (proc_name main callee)
        ∷ src_words args.now))) }
{
    out.extend_from_slice(b"call ")?;
    push_proc(out, main, callee)?;
    push_srcs(out, args)?;
    out.extend_from_slice(b"\n")?;
    Ok(())
}

/// Puts the destination of a call at the end, if it has one.
fn push_call_to(
    out: &mut Vec<u8>,
    d: u32,
    main: u32,
    callee: u32,
    args: &[Src],
) -> Result<(), AllocError>
    ensures { OnOk result (out.new.items ≡ out.old.items
        ++ line_text (Words (word (var_name d) ∷ equals ∷ word (codes "call")
        ∷ word (proc_name main callee) ∷ src_words args.now))) }
{
    push_assign(out, d)?;
    out.extend_from_slice(b" ")?;
    push_call(out, main, callee, args)
}

/// `d = OPERATION s` and `d = OPERATION a b`
#[tactic(auto, using(crate::proofs::Calling::call_lines))]
fn push_apply(
    out: &mut Vec<u8>,
    units: &UnitSet,
    d: u32,
    op: OpId,
    a: Src,
    b: Src,
) -> Result<(), AllocError>
    requires { op.0 < length (stated unit_meaning units.now).names }
    ensures { let U = stated unit_meaning units.now in
        OnOk result (out.new.items ≡ out.old.items
        ++ line_text (Words (word (var_name d) ∷ equals ∷ word (op_name U op)
        ∷ operand_words (get_or U.arities op.0 0) a b))) }
{
    push_assign(out, d)?;
    out.extend_from_slice(b" ")?;
    out.extend_from_slice(units.name(op).as_bytes())?;
    push_operands(out, units.arity(op), a, b)?;
    out.extend_from_slice(b"\n")
}

/// A step without operands.
fn push_alone(out: &mut Vec<u8>, name: &[u8]) -> Result<(), AllocError>
    ensures { OnOk result (out.new.items ≡ out.old.items
        ++ line_text (Words (word name.now ∷ []))) }
{
    out.extend_from_slice(name)?;
    out.extend_from_slice(b"\n")
}

/// Puts the line of a step at the end.
pub fn push_step(
    out: &mut Vec<u8>,
    units: &UnitSet,
    main: u32,
    step: &Step,
) -> Result<(), AllocError>
    requires { is_over (stated unit_meaning units.now) step.now ≡ true }
    ensures { OnOk result (out.new.items ≡ out.old.items
        ++ line_text (Words (step_line (stated unit_meaning units.now) main step.now))) }
{
    match step {
        Step::Copy { d, s } => push_copy(out, *d, *s),
        Step::Apply { d, op, a, b } => push_apply(out, units, *d, *op, *a, *b),
        Step::Load { d, a } => push_load(out, *d, *a),
        Step::Store { a, v } => push_store(out, *a, *v),
        Step::Put { v } => push_put(out, *v),
        Step::Take { d } => push_take(out, *d),
        Step::If { rel, a, b, to } => push_if(out, *rel, *a, *b, *to),
        Step::Goto { to } => push_goto(out, *to),
        Step::When { rel, a, b, d, s } => push_when(out, *rel, *a, *b, *d, *s),
        Step::Invoke {
            d: Some(d),
            callee,
            args,
        } => push_call_to(out, *d, main, *callee, args.as_slice()),
        Step::Invoke {
            d: None,
            callee,
            args,
        } => push_call(out, main, *callee, args.as_slice()),
        Step::Return { s: Some(s) } => push_return(out, *s),
        Step::Return { s: None } => push_alone(out, b"return"),
        Step::Halt => push_alone(out, b"halt"),
        Step::End => push_alone(out, b"end"),
    }
}
