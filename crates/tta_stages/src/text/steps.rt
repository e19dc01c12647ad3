//! The steps of register code.

ghost use Rattle.std.specs.Prelude.{◌≡◌, ◌++◌, codes, OnOk};
ghost use Rattle.tta_ops.specs.Set.{stated};
ghost use Rattle.tta_pretty.specs.Printed.{rel_name};
ghost use Rattle.tta_stages.specs.Words.{block_name, operand_text};
ghost use Rattle.tta_stages.specs.StepText.{set_text, two_text, condition_text, copy_text};
ghost use Rattle.tta_stages.specs.StepText.{apply_text, load_text, when_text, branch_text};
ghost use Rattle.tta_stages.specs.StepText.{step_text, steps_text, exit_text};

use crate::text::words::{push_block, push_count, push_kept, push_operand};
use std::alloc::AllocError;
use tta_arch::{Machine, Op};
use tta_disasm::op_name;
use tta_lir::{Exit, Place, RSrc, RStep};
use tta_ops::{OpId, UnitSet};
use tta_program::Rel;

/// What the steps of register code are told of: a machine, and those of its registers that are home
/// registers.
#[derive(Drop)]
pub struct On<'a> {
    pub m: &'a Machine,
    pub homes: &'a [(u8, u8)],
}

/// The name of a relation.
fn rel_name(rel: Rel) -> &'static [u8]
    ensures { result.now ≡ rel_name rel }
{
    match rel {
        Rel::Eq => b"eq",
        Rel::Ne => b"ne",
        Rel::Lt => b"lt",
        Rel::Ge => b"ge",
        Rel::Ltu => b"ltu",
        Rel::Geu => b"geu",
    }
}

/// Puts the begin of a step that sets a place.
#[tactic(auto, unfolding(crate::specs::StepText::set_text))]
fn push_set(out: &mut Vec<u8>, on: &On<'_>, d: Place) -> Result<(), AllocError>
    ensures { OnOk result (out.new.items ≡ out.old.items
        ++ set_text on.now.m.now on.now.homes.now d) }
{
    out.extend_from_slice(b" ")?;
    push_kept(out, on.m, on.homes, d)?;
    out.extend_from_slice(b" =")
}

/// Puts two operands.
#[tactic(auto, unfolding(crate::specs::StepText::two_text))]
fn push_two(out: &mut Vec<u8>, on: &On<'_>, a: RSrc, b: RSrc) -> Result<(), AllocError>
    ensures { OnOk result (out.new.items ≡ out.old.items
        ++ two_text on.now.m.now on.now.homes.now a b) }
{
    push_operand(out, on.m, on.homes, a)?;
    push_operand(out, on.m, on.homes, b)
}

/// Puts a condition.
#[tactic(auto, unfolding(crate::specs::StepText::condition_text))]
fn push_condition(
    out: &mut Vec<u8>,
    on: &On<'_>,
    rel: Rel,
    a: RSrc,
    b: RSrc,
) -> Result<(), AllocError>
    ensures { OnOk result (out.new.items ≡ out.old.items
        ++ condition_text on.now.m.now on.now.homes.now rel a b) }
{
    out.extend_from_slice(b" ")?;
    out.extend_from_slice(rel_name(rel))?;
    push_two(out, on, a, b)
}

/// Puts a copy.
#[tactic(auto, unfolding(crate::specs::StepText::copy_text))]
fn push_copy(out: &mut Vec<u8>, on: &On<'_>, d: Place, s: RSrc) -> Result<(), AllocError>
    ensures { OnOk result (out.new.items ≡ out.old.items
        ++ copy_text on.now.m.now on.now.homes.now d s) }
{
    push_set(out, on, d)?;
    push_operand(out, on.m, on.homes, s)
}

/// Puts an operation, with both of its operands.
#[tactic(auto, unfolding(crate::specs::StepText::apply_text))]
fn push_apply(
    out: &mut Vec<u8>,
    units: &UnitSet,
    on: &On<'_>,
    d: Place,
    op: OpId,
    operands: (RSrc, RSrc),
) -> Result<(), AllocError>
    ensures { OnOk result (out.new.items ≡ out.old.items
        ++ apply_text on.now.m.now on.now.homes.now (stated unit_meaning units.now) d op
        operands.0 operands.1) }
{
    push_set(out, on, d)?;
    out.extend_from_slice(b" ")?;
    out.extend_from_slice(op_name(units, Op::Set(op)))?;
    push_two(out, on, operands.0, operands.1)
}

/// Puts a load.
#[tactic(auto, unfolding(crate::specs::StepText::load_text))]
fn push_load(out: &mut Vec<u8>, on: &On<'_>, d: Place, a: RSrc) -> Result<(), AllocError>
    ensures { OnOk result (out.new.items ≡ out.old.items
        ++ load_text on.now.m.now on.now.homes.now d a) }
{
    push_set(out, on, d)?;
    out.extend_from_slice(b" load")?;
    push_operand(out, on.m, on.homes, a)
}

/// Puts a step that takes a word of the input.
fn push_take(out: &mut Vec<u8>, on: &On<'_>, d: Place) -> Result<(), AllocError>
    ensures { OnOk result (out.new.items ≡ out.old.items
        ++ (set_text on.now.m.now on.now.homes.now d ++ codes " in")) }
{
    push_set(out, on, d)?;
    out.extend_from_slice(b" in")
}

/// Puts a store.
fn push_store(out: &mut Vec<u8>, on: &On<'_>, a: RSrc, v: RSrc) -> Result<(), AllocError>
    ensures { OnOk result (out.new.items ≡ out.old.items
        ++ (codes " store" ++ two_text on.now.m.now on.now.homes.now a v)) }
{
    out.extend_from_slice(b" store")?;
    push_two(out, on, a, v)
}

/// Puts a step that outputs a word.
fn push_put(out: &mut Vec<u8>, on: &On<'_>, v: RSrc) -> Result<(), AllocError>
    ensures { OnOk result (out.new.items ≡ out.old.items
        ++ (codes " out" ++ operand_text on.now.m.now on.now.homes.now v)) }
{
    out.extend_from_slice(b" out")?;
    push_operand(out, on.m, on.homes, v)
}

/// Puts a copy under a condition.
#[tactic(auto, unfolding(crate::specs::StepText::when_text))]
fn push_when(
    out: &mut Vec<u8>,
    on: &On<'_>,
    rel: Rel,
    operands: (RSrc, RSrc),
    d: Place,
    s: RSrc,
) -> Result<(), AllocError>
    ensures { OnOk result (out.new.items ≡ out.old.items
        ++ when_text on.now.m.now on.now.homes.now rel operands.0 operands.1 d s) }
{
    out.extend_from_slice(b" when")?;
    push_condition(out, on, rel, operands.0, operands.1)?;
    push_copy(out, on, d, s)
}

/// Puts a step, without the end of its line.
fn push_rstep(
    out: &mut Vec<u8>,
    units: &UnitSet,
    on: &On<'_>,
    step: RStep,
) -> Result<(), AllocError>
    ensures { OnOk result (out.new.items ≡ out.old.items
        ++ step_text (stated unit_meaning units.now) on.now.m.now on.now.homes.now step) }
{
    match step {
        RStep::Copy { d, s } => push_copy(out, on, d, s),
        RStep::Apply { d, op, a, b } => push_apply(out, units, on, d, op, (a, b)),
        RStep::Load { d, a } => push_load(out, on, d, a),
        RStep::Take { d } => push_take(out, on, d),
        RStep::Store { a, v } => push_store(out, on, a, v),
        RStep::Put { v } => push_put(out, on, v),
        RStep::When { rel, a, b, d, s } => push_when(out, on, rel, (a, b), d, s),
        RStep::SaveRa { slot } => push_count(out, b" save slot.", u128::from(slot)),
    }
}

/// Puts a step as a line.
fn push_line(out: &mut Vec<u8>, units: &UnitSet, on: &On<'_>, step: RStep) -> Result<(), AllocError>
    ensures { OnOk result (out.new.items ≡ out.old.items
        ++ (step_text (stated unit_meaning units.now) on.now.m.now on.now.homes.now step
        ++ codes "\n")) }
{
    push_rstep(out, units, on, step)?;
    out.extend_from_slice(b"\n")
}

/// Puts steps, each as a line.
pub fn push_rsteps(
    out: &mut Vec<u8>,
    units: &UnitSet,
    on: &On<'_>,
    steps: &[RStep],
) -> Result<(), AllocError>
    ensures { OnOk result (out.new.items ≡ out.old.items
        ++ steps_text (stated unit_meaning units.now) on.now.m.now on.now.homes.now steps.now) }
{
    for step in steps {
        push_line(out, units, on, *step)?;
    }
    Ok(())
}

/// Puts the name of a block, after what leads to it.
fn push_to(out: &mut Vec<u8>, what: &[u8], to: u32) -> Result<(), AllocError>
    ensures { OnOk result (out.new.items ≡ out.old.items ++ (what.now ++ block_name to)) }
{
    out.extend_from_slice(what)?;
    push_block(out, u128::from(to))
}

/// Puts a jump under a condition.
#[tactic(auto, unfolding(crate::specs::StepText::branch_text))]
fn push_branch(
    out: &mut Vec<u8>,
    on: &On<'_>,
    rel: Rel,
    a: RSrc,
    b: RSrc,
    to: u32,
) -> Result<(), AllocError>
    ensures { OnOk result (out.new.items ≡ out.old.items
        ++ branch_text on.now.m.now on.now.homes.now rel a b to) }
{
    out.extend_from_slice(b" if")?;
    push_condition(out, on, rel, a, b)?;
    push_to(out, b" goto ", to)
}

/// Puts how a block ends, without the end of its line.
pub fn push_exit(out: &mut Vec<u8>, on: &On<'_>, exit: Exit) -> Result<(), AllocError>
    ensures { OnOk result (out.new.items ≡ out.old.items
        ++ exit_text on.now.m.now on.now.homes.now exit) }
{
    match exit {
        Exit::Next => out.extend_from_slice(b" next"),
        Exit::Goto { to } => push_to(out, b" goto ", to),
        Exit::If { rel, a, b, to } => push_branch(out, on, rel, a, b, to),
        Exit::Invoke { to } => push_to(out, b" call ", to),
        Exit::Back { slot } => push_count(out, b" back slot.", u128::from(slot)),
        Exit::Halt => out.extend_from_slice(b" halt"),
    }
}
