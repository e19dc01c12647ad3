//! The registers of immediate units, and the long immediates that go to them.

ghost use Rattle.std.specs.Prelude.{◌≡◌, ◌+◌, ◌≤◌, ◌==◌, ◌&&◌, ◌++◌, length, OnOk};
ghost use Rattle.std.specs.List.{enumerate_from, flat_map};
ghost use Rattle.tta_arch.specs.Effects.{KeptImm};
ghost use Rattle.tta_arch.specs.Fields.{numbers};
ghost use Rattle.tta_hardware.specs.Registers as r;
ghost use Rattle.tta_names.specs.Names.{text_of};
ghost use Rattle.tta_rtl.specs.Kept.{has_template, imm_line, long_choice, registers_of_imm, template_choice};
ghost use Rattle.tta_rtl.specs.Texts.{registers_text};

use crate::on::On;
use crate::registers::start_register;
use std::alloc::AllocError;
use tta_arch::{ImmUnit, Template};
use tta_names::push_immediate;
use tta_verilog::{push_constant, push_text};

/// Whether a template writes a register of an immediate unit.
pub fn writes(t: &Template, unit: u8, index: u8) -> bool
    ensures { result ≡ (t.now.imm == unit && t.now.reg == index) }
{
    t.imm == unit && t.reg == index
}

/// Puts the test whether the instruction has a template.
#[tactic(auto, unfolding(tta_verilog::specs::Expressions::between))]
pub fn push_has_template(out: &mut Vec<u8>, on: &On<'_>, template: u8) -> Result<(), AllocError>
    ensures { let M = on.now.m.now in
        OnOk result (out.new.items ≡ out.old.items ++ text_of M (has_template M template)) }
{
    push_text(out, b"(n_template)==(")?;
    push_constant(out, on.layout.template_width, u64::from(template) + 1)?;
    push_text(out, b")")
}

/// Puts the long immediate after that test, as a choice begins.
fn push_template_choice(out: &mut Vec<u8>, on: &On<'_>, template: u8) -> Result<(), AllocError>
    ensures { OnOk result
        (out.new.items ≡ out.old.items ++ template_choice on.now.m.now template) }
{
    push_text(out, b"(")?;
    push_has_template(out, on, template)?;
    push_text(out, b")?(n_long):")
}

/// Puts the long immediate after the test whether the instruction has a template, as a choice begins;
/// nothing where that template writes another register.
#[tactic(auto, unfolding(crate::specs::Kept::long_choice))]
fn push_long(
    out: &mut Vec<u8>,
    on: &On<'_>,
    unit: u8,
    index: u8,
    template: u8,
    t: &Template,
) -> Result<(), AllocError>
    ensures { OnOk result (out.new.items ≡ out.old.items
        ++ long_choice on.now.m.now unit index (template, t.now)) }
{
    if !writes(t, unit, index) {
        return Ok(());
    }
    push_template_choice(out, on, template)
}

/// Puts the long immediates that go to a register, each after the test whether the instruction has its
/// template, of templates from one on.
fn push_longs_from(
    out: &mut Vec<u8>,
    on: &On<'_>,
    unit: u8,
    index: u8,
    template: u8,
    templates: &[Template],
) -> Result<(), AllocError>
    requires { template + length templates.now ≤ 255 }
    ensures { OnOk result (out.new.items ≡ out.old.items
        ++ flat_map (long_choice on.now.m.now unit index) (enumerate_from template templates.now)) }
{
    match templates {
        [] => Ok(()),
        [t, rest @ ..] => {
            push_long(out, on, unit, index, template, t)?;
            push_longs_from(out, on, unit, index, template + 1, rest)
        }
    }
}

/// Puts all long immediates that go to a register, each after the test whether the instruction has its template.
fn push_all_longs(out: &mut Vec<u8>, on: &On<'_>, unit: u8, index: u8) -> Result<(), AllocError>
    ensures { let M = on.now.m.now in
        OnOk result (out.new.items ≡ out.old.items
        ++ flat_map (long_choice M unit index) (enumerate_from 0 M.templates)) }
{
    let m = on.m;
    push_longs_from(out, on, unit, index, 0, m.templates.as_slice())
}

/// Puts what a register of an immediate unit keeps from now on.
fn push_imm_next(out: &mut Vec<u8>, on: &On<'_>, unit: u8, index: u8) -> Result<(), AllocError>
    ensures { let T = text_of on.now.m.now in
        OnOk result (out.new.items ≡ out.old.items
        ++ T (r.kept_next on.now.m.now (KeptImm unit index))) }
{
    push_all_longs(out, on, unit, index)?;
    push_immediate(out, on.m, unit, index)
}

/// Puts a register of an immediate unit.
#[tactic(auto, unfolding(crate::specs::Texts::register_rest, crate::specs::Kept::imm_line))]
fn push_imm_register(
    out: &mut Vec<u8>,
    on: &On<'_>,
    declares: bool,
    unit: u8,
    index: u8,
) -> Result<(), AllocError>
    ensures { OnOk result
        (out.new.items ≡ out.old.items ++ imm_line on.now.m.now declares unit index) }
{
    start_register(out, declares, 32, false)?;
    push_immediate(out, on.m, unit, index)?;
    if declares {
        return push_text(out, b";\n");
    }
    push_text(out, b" <= ")?;
    push_imm_next(out, on, unit, index)?;
    push_text(out, b";\n")
}

/// Puts the lines of so many registers of an immediate unit.
fn push_imm_lines(
    out: &mut Vec<u8>,
    on: &On<'_>,
    declares: bool,
    unit: u8,
    size: u8,
) -> Result<(), AllocError>
    ensures { OnOk result (out.new.items ≡ out.old.items
        ++ flat_map (imm_line on.now.m.now declares unit) (numbers size)) }
{
    for index in 0..size {
        push_imm_register(out, on, declares, unit, index)?;
    }
    Ok(())
}

/// Puts so many registers of an immediate unit.
fn push_imm(
    out: &mut Vec<u8>,
    on: &On<'_>,
    declares: bool,
    unit: u8,
    size: u8,
) -> Result<(), AllocError>
    ensures { OnOk result (out.new.items ≡ out.old.items
        ++ registers_text on.now.m.now declares (registers_of_imm unit size)) }
{
    push_imm_lines(out, on, declares, unit, size)
}

/// Puts the registers of immediate units, from one on.
pub fn push_imms_from(
    out: &mut Vec<u8>,
    on: &On<'_>,
    declares: bool,
    unit: u8,
    imms: &[ImmUnit],
) -> Result<(), AllocError>
    requires { unit + length imms.now ≤ 255 }
    ensures { OnOk result (out.new.items ≡ out.old.items
        ++ registers_text on.now.m.now declares
        (flat_map (λ i. registers_of_imm i.0 i.1.size) (enumerate_from unit imms.now))) }
{
    match imms {
        [] => Ok(()),
        [i, rest @ ..] => {
            push_imm(out, on, declares, unit, i.size)?;
            push_imms_from(out, on, declares, unit + 1, rest)
        }
    }
}
