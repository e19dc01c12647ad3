//! The registers of loads: what they have read.

ghost use Rattle.std.specs.Prelude.{◌≡◌, ◌+◌, ◌≤◌, ◌++◌, length, OnOk};
ghost use Rattle.std.specs.List.{flat_map, enumerate_from};
ghost use Rattle.tta_circuit.specs.Circuit as c;
ghost use Rattle.tta_hardware.specs.Registers.{becomes, read_at, space_size};
ghost use Rattle.tta_hardware.specs.Signals as s;
ghost use Rattle.tta_names.specs.Names.{text_of};
ghost use Rattle.tta_rtl.specs.Texts.{load_text, register_of};
ghost use Rattle.tta_verilog.specs.Expressions.{reading};
ghost use Rattle.std.specs.Prelude.{false};

use crate::on::On;
use crate::registers::start_register;
use crate::results::is_load;
use crate::starts::{OpWord, UnitWord, push_op_word, push_unit_word};
use std::alloc::AllocError;
use tta_arch::{Machine, Op, Unit, UnitOp};
use tta_offers::op_at;
use tta_verilog::{push_constant, push_text};

/// Puts whether an operation of a unit began at the clock before.
#[tactic(auto, unfolding(crate::specs::Texts::register_of, crate::specs::Texts::register_rest))]
fn push_began(
    out: &mut Vec<u8>,
    on: &On<'_>,
    declares: bool,
    unit: u8,
    op: u8,
) -> Result<(), AllocError>
    ensures { OnOk result (out.new.items ≡ out.old.items
        ++ register_of on.now.m.now declares (s.HasBegun unit op)) }
{
    start_register(out, declares, 1, false)?;
    push_op_word(out, on.m, OpWord::Began, unit, op)?;
    if declares {
        return push_text(out, b";\n");
    }
    push_text(out, b" <= ")?;
    push_op_word(out, on.m, OpWord::Starts, unit, op)?;
    push_text(out, b";\n")
}

/// Puts the word of a space at the address that starts an operation of a unit.
#[tactic(auto, unfolding(tta_verilog::specs::Expressions::reading))]
fn push_word_of(out: &mut Vec<u8>, on: &On<'_>, unit: u8, space: &[u8]) -> Result<(), AllocError>
    ensures { OnOk result (out.new.items ≡ out.old.items
        ++ reading false space.now (text_of on.now.m.now (c.Signal (s.Trigger unit)))) }
{
    push_text(out, space)?;
    push_text(out, b"[")?;
    push_unit_word(out, on.m, UnitWord::Trigger, unit)?;
    push_text(out, b"]")
}

/// Puts the word of the space that an operation loads from, at that address.
fn push_read_at(out: &mut Vec<u8>, on: &On<'_>, unit: u8, op: Op) -> Result<(), AllocError>
    ensures { OnOk result (out.new.items ≡ out.old.items
        ++ text_of on.now.m.now (read_at op (c.Signal (s.Trigger unit)))) }
{
    match op {
        Op::Ldf => push_word_of(out, on, unit, b"frame"),
        Op::Ldw | Op::Stw | Op::Stf | Op::Out | Op::Take | Op::Set(_) => {
            push_word_of(out, on, unit, b"data")
        }
    }
}

/// Puts the word that an operation of a unit reads.
fn push_raw_next(out: &mut Vec<u8>, on: &On<'_>, unit: u8, op: u8) -> Result<(), AllocError>
    ensures { OnOk result (out.new.items ≡ out.old.items
        ++ text_of on.now.m.now (becomes on.now.m.now (s.Raw unit op))) }
{
    match op_at(on.m, unit, op) {
        None => push_constant(out, 32, 0),
        Some(o) => push_read_at(out, on, unit, o.op),
    }
}

/// Puts the word that a load has read.
#[tactic(auto, unfolding(crate::specs::Texts::register_of, crate::specs::Texts::register_rest))]
fn push_raw(
    out: &mut Vec<u8>,
    on: &On<'_>,
    declares: bool,
    unit: u8,
    op: u8,
) -> Result<(), AllocError>
    ensures { OnOk result (out.new.items ≡ out.old.items
        ++ register_of on.now.m.now declares (s.Raw unit op)) }
{
    start_register(out, declares, 32, false)?;
    push_op_word(out, on.m, OpWord::Raw, unit, op)?;
    if declares {
        return push_text(out, b";\n");
    }
    push_text(out, b" <= ")?;
    push_raw_next(out, on, unit, op)?;
    push_text(out, b";\n")
}

/// How many words the space has that an operation loads from.
fn space_size(m: &Machine, op: Op) -> u32
    ensures { result ≡ space_size m.now op }
{
    match op {
        Op::Ldf => m.frame_words,
        Op::Ldw | Op::Stw | Op::Stf | Op::Out | Op::Take | Op::Set(_) => m.data_words,
    }
}

/// Puts whether the address that starts an operation of a unit is below a size.
#[tactic(auto, unfolding(tta_verilog::specs::Expressions::between))]
fn push_below(out: &mut Vec<u8>, on: &On<'_>, unit: u8, size: u32) -> Result<(), AllocError>
    ensures { OnOk result (out.new.items ≡ out.old.items ++ text_of on.now.m.now
        (c.Below (c.Signal (s.Trigger unit)) (c.Const 32 size))) }
{
    push_text(out, b"(")?;
    push_unit_word(out, on.m, UnitWord::Trigger, unit)?;
    push_text(out, b")<(")?;
    push_constant(out, 32, u64::from(size))?;
    push_text(out, b")")
}

/// Puts whether the address of an operation of a unit is inside its space.
fn push_inside_next(out: &mut Vec<u8>, on: &On<'_>, unit: u8, op: u8) -> Result<(), AllocError>
    ensures { OnOk result (out.new.items ≡ out.old.items
        ++ text_of on.now.m.now (becomes on.now.m.now (s.IsInside unit op))) }
{
    match op_at(on.m, unit, op) {
        None => push_constant(out, 1, 0),
        Some(o) => push_below(out, on, unit, space_size(on.m, o.op)),
    }
}

/// Puts whether the address of a load was inside its space.
#[tactic(auto, unfolding(crate::specs::Texts::register_of, crate::specs::Texts::register_rest))]
fn push_inside(
    out: &mut Vec<u8>,
    on: &On<'_>,
    declares: bool,
    unit: u8,
    op: u8,
) -> Result<(), AllocError>
    ensures { OnOk result (out.new.items ≡ out.old.items
        ++ register_of on.now.m.now declares (s.IsInside unit op)) }
{
    start_register(out, declares, 1, false)?;
    push_op_word(out, on.m, OpWord::Inside, unit, op)?;
    if declares {
        return push_text(out, b";\n");
    }
    push_text(out, b" <= ")?;
    push_inside_next(out, on, unit, op)?;
    push_text(out, b";\n")
}

/// Puts the registers of an operation of a unit, if it is a load.
#[tactic(auto, unfolding(crate::specs::Texts::load_text))]
fn push_load(
    out: &mut Vec<u8>,
    on: &On<'_>,
    declares: bool,
    unit: u8,
    op: u8,
    o: UnitOp,
) -> Result<(), AllocError>
    ensures { OnOk result (out.new.items ≡ out.old.items
        ++ load_text on.now.m.now declares unit (op, o)) }
{
    if !is_load(o.op) {
        return Ok(());
    }
    push_began(out, on, declares, unit, op)?;
    push_raw(out, on, declares, unit, op)?;
    push_inside(out, on, declares, unit, op)
}

/// Puts the registers of the loads of a unit, of operations from one on.
fn push_loads_from(
    out: &mut Vec<u8>,
    on: &On<'_>,
    declares: bool,
    unit: u8,
    op: u8,
    ops: &[UnitOp],
) -> Result<(), AllocError>
    requires few { op + length ops.now ≤ 255 }
    ensures { OnOk result (out.new.items ≡ out.old.items
        ++ flat_map (load_text on.now.m.now declares unit) (enumerate_from op ops.now)) }
{
    match ops {
        [] => Ok(()),
        [o, rest @ ..] => {
            push_load(out, on, declares, unit, op, *o)?;
            push_loads_from(out, on, declares, unit, op + 1, rest)
        }
    }
}

/// Puts the registers of the loads of a unit.
pub fn push_loads(
    out: &mut Vec<u8>,
    on: &On<'_>,
    declares: bool,
    unit: u8,
    u: &Unit,
) -> Result<(), AllocError>
    requires few { length u.now.ops ≤ 255 }
    ensures { OnOk result (out.new.items ≡ out.old.items
        ++ flat_map (load_text on.now.m.now declares unit) (enumerate_from 0 u.now.ops)) }
{
    push_loads_from(out, on, declares, unit, 0, u.ops.as_slice())
}
