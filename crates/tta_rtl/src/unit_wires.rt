//! The wires of units: what they start, and with which words.

ghost use Rattle.std.specs.Prelude.{◌≡◌, ◌+◌, ◌≤◌, ◌++◌, true, length, OnOk};
ghost use Rattle.std.specs.List.{list_all, flat_map, enumerate_from, range_with_len};
ghost use Rattle.tta_arch.specs.Fields.{numbers};
ghost use Rattle.tta_arch.specs.Rules.{is_unit};
ghost use Rattle.tta_hardware.specs.Signals as s;
ghost use Rattle.tta_hardware.specs.Wires as w;
ghost use Rattle.tta_hardware.specs.Hardware.{unit_wires, wire};
ghost use Rattle.tta_names.specs.Names.{names_of, signal_name, text_of};
ghost use Rattle.tta_rtl.specs.Texts.{start_text, triggers, unit_text, unit_word};
ghost use Rattle.tta_rtl.specs.Texts.{wire_start, wires_text};
ghost use Rattle.tta_verilog.specs.Circuits.{wire_text};

use crate::on::On;
use crate::reach::{push_arrivals, push_reached};
use crate::starts::{OpWord, UnitWord, push_op_word, push_unit_word};
use std::alloc::AllocError;
use tta_arch::{Dest, Machine, Unit, UnitOp};
use tta_offers::ops_at;
use tta_verilog::{push_constant, push_range, push_text};

/// Puts how the line of a wire of a unit begins.
#[tactic(auto, unfolding(crate::specs::Texts::wire_start))]
pub fn start_word(
    out: &mut Vec<u8>,
    m: &Machine,
    word: UnitWord,
    unit: u8,
) -> Result<(), AllocError>
    ensures { OnOk result (out.new.items ≡ out.old.items
        ++ wire_start (signal_name m.now (unit_word word unit)) 32) }
{
    push_text(out, b"wire ")?;
    push_range(out, 32)?;
    push_unit_word(out, m, word, unit)?;
    push_text(out, b" = ")
}

/// Puts what starts the operations of a unit, these being those from one on.
fn push_triggers_from(
    out: &mut Vec<u8>,
    on: &On<'_>,
    unit: u8,
    op: u8,
    ops: &[UnitOp],
) -> Result<(), AllocError>
    requires few { op + length ops.now ≤ 255 }
    ensures { OnOk result
        (out.new.items ≡ out.old.items ++ triggers on.now.m.now unit op ops.now) }
{
    match ops {
        [] => Ok(()),
        [_, rest @ ..] => {
            push_arrivals(out, on, Dest::Trigger { unit, op })?;
            push_triggers_from(out, on, unit, op + 1, rest)
        }
    }
}

/// Puts the word that starts an operation of a unit.
fn push_trigger_word(out: &mut Vec<u8>, on: &On<'_>, unit: u8) -> Result<(), AllocError>
    ensures { let T = text_of on.now.m.now in
        OnOk result (out.new.items ≡ out.old.items ++ T (w.trigger_word on.now.m.now unit)) }
{
    push_triggers_from(out, on, unit, 0, ops_at(on.m, unit))?;
    push_constant(out, 32, 0)
}

/// Puts the wire of the word that starts an operation of a unit.
#[tactic(auto, unfolding(crate::specs::Texts::wire_start, tta_verilog::specs::Circuits::wire_line))]
fn push_trigger(out: &mut Vec<u8>, on: &On<'_>, unit: u8) -> Result<(), AllocError>
    ensures { OnOk result (out.new.items ≡ out.old.items
        ++ wire_text (names_of on.now.m.now) (wire on.now.m.now (s.Trigger unit))) }
{
    start_word(out, on.m, UnitWord::Trigger, unit)?;
    push_trigger_word(out, on, unit)?;
    push_text(out, b";\n")
}

/// Puts the word in a unit's operand port once this cycle's moves are made.
fn push_operand_word(out: &mut Vec<u8>, on: &On<'_>, unit: u8) -> Result<(), AllocError>
    ensures { let T = text_of on.now.m.now in
        OnOk result (out.new.items ≡ out.old.items ++ T (w.operand_now on.now.m.now unit)) }
{
    push_arrivals(out, on, Dest::Operand { unit })?;
    push_unit_word(out, on.m, UnitWord::Kept, unit)
}

/// Puts the wire of that word.
#[tactic(auto, unfolding(crate::specs::Texts::wire_start, tta_verilog::specs::Circuits::wire_line))]
fn push_operand(out: &mut Vec<u8>, on: &On<'_>, unit: u8) -> Result<(), AllocError>
    ensures { OnOk result (out.new.items ≡ out.old.items
        ++ wire_text (names_of on.now.m.now) (wire on.now.m.now (s.Operand unit))) }
{
    start_word(out, on.m, UnitWord::Operand, unit)?;
    push_operand_word(out, on, unit)?;
    push_text(out, b";\n")
}

/// Puts the wire that says whether an operation of a unit starts.
#[tactic(auto, unfolding(crate::specs::Texts::start_text, tta_verilog::specs::Circuits::wire_line))]
fn push_start(out: &mut Vec<u8>, on: &On<'_>, unit: u8, op: u8) -> Result<(), AllocError>
    ensures { OnOk result (out.new.items ≡ out.old.items ++ start_text on.now.m.now unit op) }
{
    push_text(out, b"wire ")?;
    push_range(out, 1)?;
    push_op_word(out, on.m, OpWord::Starts, unit, op)?;
    push_text(out, b" = ")?;
    push_reached(out, on, Dest::Trigger { unit, op })?;
    push_text(out, b";\n")
}

/// Puts which operations of a unit start, these being those from one on.
fn push_starts_from(
    out: &mut Vec<u8>,
    on: &On<'_>,
    unit: u8,
    op: u8,
    ops: &[UnitOp],
) -> Result<(), AllocError>
    requires few { op + length ops.now ≤ 255 }
    ensures { OnOk result (out.new.items ≡ out.old.items
        ++ flat_map (start_text on.now.m.now unit) (range_with_len op (length ops.now))) }
{
    match ops {
        [] => Ok(()),
        [_, rest @ ..] => {
            push_start(out, on, unit, op)?;
            push_starts_from(out, on, unit, op + 1, rest)
        }
    }
}

/// Puts which operations of a unit start.
fn push_starts(out: &mut Vec<u8>, on: &On<'_>, unit: u8, u: &Unit) -> Result<(), AllocError>
    requires few { length u.now.ops ≤ 255 }
    ensures { OnOk result (out.new.items ≡ out.old.items
        ++ flat_map (start_text on.now.m.now unit) (numbers (length u.now.ops))) }
{
    push_starts_from(out, on, unit, 0, u.ops.as_slice())
}

/// Puts the wires of a unit.
fn push_unit(out: &mut Vec<u8>, on: &On<'_>, unit: u8, u: &Unit) -> Result<(), AllocError>
    requires few { length u.now.ops ≤ 255 }
    ensures { OnOk result (out.new.items ≡ out.old.items ++ unit_text on.now.m.now (unit, u.now)) }
{
    push_starts(out, on, unit, u)?;
    push_trigger(out, on, unit)?;
    push_operand(out, on, unit)
}

/// Puts the wires of units, from one on.
fn push_units_from(
    out: &mut Vec<u8>,
    on: &On<'_>,
    unit: u8,
    units: &[Unit],
) -> Result<(), AllocError>
    requires few { unit + length units.now ≤ 255 }
    requires rules { list_all (is_unit on.now.m.now.sockets) units.now ≡ true }
    ensures { OnOk result (out.new.items ≡ out.old.items
        ++ flat_map (unit_text on.now.m.now) (enumerate_from unit units.now)) }
{
    match units {
        [] => Ok(()),
        [u, rest @ ..] => {
            push_unit(out, on, unit, u)?;
            push_units_from(out, on, unit + 1, rest)
        }
    }
}

/// Puts the wires of all units.
#[tactic(auto, using(crate::proofs::UnitWires::units_text))]
pub fn push_units(out: &mut Vec<u8>, on: &On<'_>) -> Result<(), AllocError>
    ensures { OnOk result (out.new.items ≡ out.old.items ++ wires_text on.now.m.now
        (flat_map unit_wires (enumerate_from 0 on.now.m.now.units))) }
{
    let m = on.m;
    push_units_from(out, on, 0, m.units.as_slice())
}
