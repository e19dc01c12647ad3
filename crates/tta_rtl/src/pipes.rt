//! The registers of units.

ghost use Rattle.std.specs.Prelude.{◌≡◌, ◌+◌, ◌≤◌, ◌++◌, true, length, OnOk};
ghost use Rattle.std.specs.List.{list_all, flat_map, enumerate_from};
ghost use Rattle.tta_arch.specs.Effects.{KeptOperand, KeptPort};
ghost use Rattle.tta_arch.specs.Rules.{is_unit};
ghost use Rattle.tta_circuit.specs.Circuit as c;
ghost use Rattle.tta_hardware.specs.Hardware.{unit_registers};
ghost use Rattle.tta_hardware.specs.Registers.{kept_next};
ghost use Rattle.tta_hardware.specs.Signals as s;
ghost use Rattle.tta_names.specs.Names.{text_of};
ghost use Rattle.tta_rtl.specs.Texts.{register_of, register_rest, registers_text};
ghost use Rattle.tta_rtl.specs.Texts.{unit_registers_text};

use crate::coming::{push_coming, push_is_coming};
use crate::dues::{push_all_due_words, push_all_dues};
use crate::loads::push_loads;
use crate::on::On;
use crate::registers::start_register;
use crate::results::push_new;
use crate::starts::{UnitWord, push_unit_word};
use std::alloc::AllocError;
use tta_arch::Unit;
use tta_verilog::push_text;

/// Puts how the line of the operand port of a unit ends.
#[tactic(auto, unfolding(crate::specs::Texts::register_rest))]
fn push_operand_rest(
    out: &mut Vec<u8>,
    on: &On<'_>,
    declares: bool,
    unit: u8,
) -> Result<(), AllocError>
    ensures { OnOk result (out.new.items ≡ out.old.items
        ++ register_rest declares (text_of on.now.m.now (c.Signal (s.Operand unit)))) }
{
    if declares {
        return push_text(out, b";\n");
    }
    push_text(out, b" <= ")?;
    push_unit_word(out, on.m, UnitWord::Operand, unit)?;
    push_text(out, b";\n")
}

/// Puts the operand port of a unit.
#[tactic(auto, unfolding(crate::specs::Texts::register_of))]
pub fn push_operand_port(
    out: &mut Vec<u8>,
    on: &On<'_>,
    declares: bool,
    unit: u8,
) -> Result<(), AllocError>
    ensures { OnOk result (out.new.items ≡ out.old.items
        ++ register_of on.now.m.now declares (s.Keeps (KeptOperand unit))) }
{
    start_register(out, declares, 32, false)?;
    push_unit_word(out, on.m, UnitWord::Kept, unit)?;
    push_operand_rest(out, on, declares, unit)
}

/// Puts what the result port of a unit becomes.
#[tactic(auto, unfolding(crate::specs::Texts::choice_start, tta_verilog::specs::Expressions::choice))]
fn push_result_next(out: &mut Vec<u8>, on: &On<'_>, unit: u8) -> Result<(), AllocError>
    ensures { OnOk result (out.new.items ≡ out.old.items
        ++ text_of on.now.m.now (kept_next on.now.m.now (KeptPort unit))) }
{
    push_new(out, on, unit, 1)?;
    push_text(out, b"(")?;
    push_is_coming(out, on, unit, 1)?;
    push_text(out, b")?(")?;
    push_coming(out, on, unit, 1)?;
    push_text(out, b"):")?;
    push_unit_word(out, on.m, UnitWord::Shown, unit)
}

/// Puts the result port of a unit.
#[tactic(auto, unfolding(crate::specs::Texts::register_of, crate::specs::Texts::register_rest))]
fn push_result_port(
    out: &mut Vec<u8>,
    on: &On<'_>,
    declares: bool,
    unit: u8,
) -> Result<(), AllocError>
    ensures { OnOk result (out.new.items ≡ out.old.items
        ++ register_of on.now.m.now declares (s.Keeps (KeptPort unit))) }
{
    start_register(out, declares, 32, false)?;
    push_unit_word(out, on.m, UnitWord::Result, unit)?;
    if declares {
        return push_text(out, b";\n");
    }
    push_text(out, b" <= ")?;
    push_result_next(out, on, unit)?;
    push_text(out, b";\n")
}

/// Puts the registers of a unit.
fn push_unit(
    out: &mut Vec<u8>,
    on: &On<'_>,
    declares: bool,
    unit: u8,
    u: &Unit,
) -> Result<(), AllocError>
    requires few { length u.now.ops ≤ 255 }
    ensures { OnOk result (out.new.items ≡ out.old.items
        ++ unit_registers_text on.now.m.now declares (unit, u.now)) }
{
    push_operand_port(out, on, declares, unit)?;
    push_result_port(out, on, declares, unit)?;
    push_all_dues(out, on, declares, unit)?;
    push_all_due_words(out, on, declares, unit)?;
    push_loads(out, on, declares, unit, u)
}

/// Puts the registers of units, from one on.
fn push_units_from(
    out: &mut Vec<u8>,
    on: &On<'_>,
    declares: bool,
    unit: u8,
    units: &[Unit],
) -> Result<(), AllocError>
    requires few { unit + length units.now ≤ 255 }
    requires rules { list_all (is_unit on.now.m.now.sockets) units.now ≡ true }
    ensures { OnOk result (out.new.items ≡ out.old.items
        ++ flat_map (unit_registers_text on.now.m.now declares) (enumerate_from unit units.now)) }
{
    match units {
        [] => Ok(()),
        [u, rest @ ..] => {
            push_unit(out, on, declares, unit, u)?;
            push_units_from(out, on, declares, unit + 1, rest)
        }
    }
}

/// Puts the registers of all units.
#[tactic(auto, using(crate::proofs::UnitRegisters::units_registers))]
pub fn push_pipes(out: &mut Vec<u8>, on: &On<'_>, declares: bool) -> Result<(), AllocError>
    ensures { OnOk result (out.new.items ≡ out.old.items ++ registers_text on.now.m.now declares
        (flat_map (unit_registers on.now.m.now) (enumerate_from 0 on.now.m.now.units))) }
{
    let m = on.m;
    push_units_from(out, on, declares, 0, m.units.as_slice())
}
