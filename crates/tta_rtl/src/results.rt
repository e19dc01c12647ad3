//! What operations show, and when.

ghost use Rattle.std.specs.Prelude.{◌≡◌, ◌+◌, ◌≤◌, ◌==◌, ◌&&◌, ◌++◌, if◌then◌else◌, OnOk};
ghost use Rattle.std.specs.Prelude.{map, filter, length};
ghost use Rattle.std.specs.List.{flat_map, enumerate_from};
ghost use Rattle.tta_arch.specs.Effects.{has_result};
ghost use Rattle.tta_circuit.specs.Circuit as c;
ghost use Rattle.tta_hardware.specs.Chains.{any_of};
ghost use Rattle.tta_hardware.specs.Signals as s;
ghost use Rattle.tta_hardware.specs.Wires as w;
ghost use Rattle.tta_names.specs.Names.{text_of};
ghost use Rattle.tta_rtl.specs.Texts.{choice_start, fresh_choice, fresh_choices, made_choice};

use crate::on::On;
use crate::starts::{OpWord, UnitWord, push_op_word, push_test, push_unit_word};
use std::alloc::AllocError;
use tta_arch::{Op, UnitOp};
use tta_offers::ops_at;
use tta_verilog::{push_constant, push_number, push_text};

/// Whether an operation loads a word of a space.
pub fn is_load(op: Op) -> bool
    ensures { result ≡ w.is_load op }
{
    match op {
        Op::Ldw | Op::Ldf => true,
        Op::Stw | Op::Stf | Op::Out | Op::Take | Op::Set(_) => false,
    }
}

/// Whether a load's result shows after so many cycles.
pub fn loads_in(o: UnitOp, latency: u8) -> bool
    ensures { result ≡ (w.is_load o.op && o.latency == latency) }
{
    is_load(o.op) && o.latency == latency
}

/// Whether an operation's result shows after so many cycles.
pub fn shows_in(o: UnitOp, latency: u8) -> bool
    ensures { result ≡ (has_result o.op && o.latency == latency) }
{
    o.op.has_result() && o.latency == latency
}

/// Puts the word that a load has read: 0 past the end of its space.
#[tactic(auto, unfolding(crate::specs::Texts::tested, tta_verilog::specs::Expressions::choice))]
fn push_read_word(out: &mut Vec<u8>, on: &On<'_>, unit: u8, op: u8) -> Result<(), AllocError>
    ensures { OnOk result
        (out.new.items ≡ out.old.items ++ text_of on.now.m.now (w.read_word unit op)) }
{
    push_test(out, on.m, OpWord::Inside, unit, op)?;
    push_op_word(out, on.m, OpWord::Raw, unit, op)?;
    push_text(out, b"):")?;
    push_constant(out, 32, 0)
}

/// Puts the word of an operation, after the test whether it began at the clock before, if it is a load of
/// this latency.
#[tactic(auto, unfolding(crate::specs::Texts::tested, crate::specs::Texts::choice_start, crate::specs::Texts::fresh_choice))]
fn push_fresh_choice(
    out: &mut Vec<u8>,
    on: &On<'_>,
    unit: u8,
    latency: u8,
    op: u8,
    o: UnitOp,
) -> Result<(), AllocError>
    ensures { OnOk result (out.new.items ≡ out.old.items
        ++ fresh_choice on.now.m.now unit latency (op, o)) }
{
    if !loads_in(o, latency) {
        return Ok(());
    }
    push_test(out, on.m, OpWord::Began, unit, op)?;
    push_read_word(out, on, unit, op)?;
    push_text(out, b"):")
}

/// Puts the same for some operations, these being those of the unit from one on.
fn push_fresh_from(
    out: &mut Vec<u8>,
    on: &On<'_>,
    unit: u8,
    latency: u8,
    op: u8,
    ops: &[UnitOp],
) -> Result<(), AllocError>
    requires few { op + length ops.now ≤ 255 }
    ensures { OnOk result (out.new.items ≡ out.old.items
        ++ flat_map (fresh_choice on.now.m.now unit latency) (enumerate_from op ops.now)) }
{
    match ops {
        [] => Ok(()),
        [o, rest @ ..] => {
            push_fresh_choice(out, on, unit, latency, op, *o)?;
            push_fresh_from(out, on, unit, latency, op + 1, rest)
        }
    }
}

/// Puts the words of those loads of a unit that began at the clock before and have this latency, each
/// after the test whether it did.
pub fn push_fresh(out: &mut Vec<u8>, on: &On<'_>, unit: u8, latency: u8) -> Result<(), AllocError>
    ensures { OnOk result
        (out.new.items ≡ out.old.items ++ fresh_choices on.now.m.now unit latency) }
{
    push_fresh_from(out, on, unit, latency, 0, ops_at(on.m, unit))
}

/// Puts the first word that an operation takes: 0 where it takes one alone.
pub fn push_first_word(
    out: &mut Vec<u8>,
    on: &On<'_>,
    unit: u8,
    o: UnitOp,
) -> Result<(), AllocError>
    ensures { OnOk result (out.new.items ≡ out.old.items ++ text_of on.now.m.now
        (if o.arity == 2 then c.Signal (s.Operand unit) else w.nothing)) }
{
    if o.arity == 2 {
        push_unit_word(out, on.m, UnitWord::Operand, unit)
    } else {
        push_constant(out, 32, 0)
    }
}

/// Puts what an operation of the set of units makes of its words.
#[tactic(auto, unfolding(tta_verilog::specs::Expressions::call))]
fn push_applied(
    out: &mut Vec<u8>,
    on: &On<'_>,
    unit: u8,
    o: UnitOp,
    id: u32,
) -> Result<(), AllocError>
    ensures { OnOk result (out.new.items ≡ out.old.items ++ text_of on.now.m.now
        (c.Apply id (if o.arity == 2 then c.Signal (s.Operand unit) else w.nothing)
        (c.Signal (s.Trigger unit)))) }
{
    push_text(out, b"op_")?;
    push_number(out, u64::from(id))?;
    push_text(out, b"(")?;
    push_first_word(out, on, unit, o)?;
    push_text(out, b",")?;
    push_unit_word(out, on.m, UnitWord::Trigger, unit)?;
    push_text(out, b")")
}

/// Puts the word that an operation shows; a load has none yet.
pub fn push_result(out: &mut Vec<u8>, on: &On<'_>, unit: u8, o: UnitOp) -> Result<(), AllocError>
    ensures { OnOk result (out.new.items ≡ out.old.items
        ++ text_of on.now.m.now (w.result_of on.now.m.now unit o)) }
{
    match o.op {
        Op::Take => push_text(out, b"in_data"),
        Op::Set(id) => push_applied(out, on, unit, o, id.0),
        Op::Ldw | Op::Stw | Op::Ldf | Op::Stf | Op::Out => push_constant(out, 32, 0),
    }
}

/// Puts whether one of those operations of a unit starts, of these from one on, whose results show after
/// so many cycles.
#[tactic(auto, unfolding(tta_verilog::specs::Expressions::between))]
fn push_begins_from(
    out: &mut Vec<u8>,
    on: &On<'_>,
    unit: u8,
    latency: u8,
    op: u8,
    ops: &[UnitOp],
) -> Result<(), AllocError>
    requires few { op + length ops.now ≤ 255 }
    ensures { OnOk result (out.new.items ≡ out.old.items ++ text_of on.now.m.now
        (any_of (map (λ o. c.Signal (s.Starts unit o.0))
        (filter (λ o. has_result o.1.op && o.1.latency == latency) (enumerate_from op ops.now))))) }
{
    match ops {
        [] => push_constant(out, 1, 0),
        [o, rest @ ..] => {
            if !shows_in(*o, latency) {
                return push_begins_from(out, on, unit, latency, op + 1, rest);
            }
            push_text(out, b"(")?;
            push_op_word(out, on.m, OpWord::Starts, unit, op)?;
            push_text(out, b")||(")?;
            push_begins_from(out, on, unit, latency, op + 1, rest)?;
            push_text(out, b")")
        }
    }
}

/// Puts whether one of those operations of a unit starts whose results show after so many cycles.
pub fn push_begins(out: &mut Vec<u8>, on: &On<'_>, unit: u8, latency: u8) -> Result<(), AllocError>
    ensures { OnOk result (out.new.items ≡ out.old.items
        ++ text_of on.now.m.now (w.begins on.now.m.now unit latency)) }
{
    push_begins_from(out, on, unit, latency, 0, ops_at(on.m, unit))
}

/// Puts the result of an operation, after the test whether it starts, if it shows after so many cycles.
#[tactic(auto, unfolding(crate::specs::Texts::tested, crate::specs::Texts::choice_start, crate::specs::Texts::made_choice))]
fn push_made_choice(
    out: &mut Vec<u8>,
    on: &On<'_>,
    unit: u8,
    latency: u8,
    op: u8,
    o: UnitOp,
) -> Result<(), AllocError>
    ensures { OnOk result (out.new.items ≡ out.old.items
        ++ made_choice on.now.m.now unit latency (op, o)) }
{
    if !shows_in(o, latency) {
        return Ok(());
    }
    push_test(out, on.m, OpWord::Starts, unit, op)?;
    push_result(out, on, unit, o)?;
    push_text(out, b"):")
}

/// Puts the same for some operations, these being those of the unit from one on.
fn push_made_from(
    out: &mut Vec<u8>,
    on: &On<'_>,
    unit: u8,
    latency: u8,
    op: u8,
    ops: &[UnitOp],
) -> Result<(), AllocError>
    requires few { op + length ops.now ≤ 255 }
    ensures { OnOk result (out.new.items ≡ out.old.items
        ++ flat_map (made_choice on.now.m.now unit latency) (enumerate_from op ops.now)) }
{
    match ops {
        [] => Ok(()),
        [o, rest @ ..] => {
            push_made_choice(out, on, unit, latency, op, *o)?;
            push_made_from(out, on, unit, latency, op + 1, rest)
        }
    }
}

/// Puts the word of that operation of a unit that starts whose results show after so many cycles, and 0
/// where none does.
pub fn push_made(out: &mut Vec<u8>, on: &On<'_>, unit: u8, latency: u8) -> Result<(), AllocError>
    ensures { OnOk result (out.new.items ≡ out.old.items
        ++ text_of on.now.m.now (w.made on.now.m.now unit latency)) }
{
    push_made_from(out, on, unit, latency, 0, ops_at(on.m, unit))?;
    push_constant(out, 32, 0)
}

/// Puts the word of the operation of a unit that starts and whose result shows after so many cycles, after
/// the test whether there is one.
#[tactic(auto, unfolding(crate::specs::Texts::choice_start))]
pub fn push_new(out: &mut Vec<u8>, on: &On<'_>, unit: u8, latency: u8) -> Result<(), AllocError>
    ensures { let T = text_of on.now.m.now in OnOk result (out.new.items ≡ out.old.items
        ++ choice_start (T (w.begins on.now.m.now unit latency)) (T (w.made on.now.m.now unit latency))) }
{
    push_text(out, b"(")?;
    push_begins(out, on, unit, latency)?;
    push_text(out, b")?(")?;
    push_made(out, on, unit, latency)?;
    push_text(out, b"):")
}
