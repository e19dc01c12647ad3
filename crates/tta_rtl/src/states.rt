//! The registers of control.

ghost use Rattle.std.specs.Prelude.{◌≡◌, ◌+◌, ◌++◌, true, false, codes, OnOk};
ghost use Rattle.std.specs.List.{flat_map, range_with_len};
ghost use Rattle.tta_arch.specs.Effects.{KeptRa};
ghost use Rattle.tta_hardware.specs.Signals as s;
ghost use Rattle.tta_hardware.specs.Registers as r;
ghost use Rattle.tta_names.specs.Names.{text_of};
ghost use Rattle.tta_rtl.specs.Kept.{fixed, line_of, return_address, underway_line, underway_name, underways};
ghost use Rattle.tta_rtl.specs.Texts.{register_line, registers_text};

use crate::on::On;
use crate::reach::push_reached;
use crate::registers::start_register;
use std::alloc::AllocError;
use tta_arch::Dest;
use tta_verilog::{push_constant, push_number, push_text};

/// Puts the name of what says whether a control move takes effect in so many cycles.
#[tactic(auto, unfolding(crate::specs::Kept::underway_name))]
pub fn push_underway_name(out: &mut Vec<u8>, delay: u64) -> Result<(), AllocError>
    ensures { OnOk result (out.new.items ≡ out.old.items ++ underway_name delay) }
{
    push_text(out, b"n_underway_")?;
    push_number(out, delay)
}

/// Puts whether a control move is to take effect in so many cycles, at a clock that carries an instruction out.
#[tactic(auto, unfolding(crate::specs::Kept::underway_name))]
fn push_next_underway(out: &mut Vec<u8>, on: &On<'_>, delay: u8) -> Result<(), AllocError>
    ensures { let T = text_of on.now.m.now in
        OnOk result (out.new.items ≡ out.old.items ++ T (r.next_of on.now.m.now (s.Underway delay))) }
{
    let m = on.m;
    if delay == m.control.delay {
        push_text(out, b"n_controls")
    } else {
        push_underway_name(out, u64::from(delay) + 1)
    }
}

/// Puts that at the next clock, which may begin anew.
#[tactic(auto, unfolding(tta_verilog::specs::Expressions::choice))]
fn push_underway_next(out: &mut Vec<u8>, on: &On<'_>, delay: u8) -> Result<(), AllocError>
    ensures { let T = text_of on.now.m.now in
        OnOk result (out.new.items ≡ out.old.items ++ T (r.becomes on.now.m.now (s.Underway delay))) }
{
    push_text(out, b"(reset)?(")?;
    push_constant(out, 1, 0)?;
    push_text(out, b"):")?;
    push_next_underway(out, on, delay)
}

/// Puts whether a control move takes effect in so many cycles.
#[tactic(auto, unfolding(crate::specs::Texts::register_rest, crate::specs::Kept::underway_line))]
fn push_underway(
    out: &mut Vec<u8>,
    on: &On<'_>,
    declares: bool,
    delay: u8,
) -> Result<(), AllocError>
    ensures { OnOk result
        (out.new.items ≡ out.old.items ++ underway_line on.now.m.now declares delay) }
{
    start_register(out, declares, 1, true)?;
    push_underway_name(out, u64::from(delay))?;
    if declares {
        return push_text(out, b";\n");
    }
    push_text(out, b" <= ")?;
    push_underway_next(out, on, delay)?;
    push_text(out, b";\n")
}

/// Puts the return address of a call: the address after the instruction, and the delay.
#[tactic(auto, unfolding(tta_verilog::specs::Expressions::between, tta_verilog::specs::Expressions::joined))]
fn push_return_address(out: &mut Vec<u8>, on: &On<'_>) -> Result<(), AllocError>
    ensures { let T = text_of on.now.m.now in
        OnOk result (out.new.items ≡ out.old.items ++ T (return_address on.now.m.now)) }
{
    let m = on.m;
    push_text(out, b"({")?;
    push_constant(out, 32 - u32::from(m.control.address), 0)?;
    push_text(out, b",n_pc})+(")?;
    push_constant(out, 32, 1 + u64::from(m.control.delay))?;
    push_text(out, b")")
}

/// Puts what the return address becomes.
#[tactic(auto, unfolding(tta_verilog::specs::Expressions::choice))]
fn push_next_return(out: &mut Vec<u8>, on: &On<'_>) -> Result<(), AllocError>
    ensures { let T = text_of on.now.m.now in
        OnOk result (out.new.items ≡ out.old.items ++ T (r.kept_next on.now.m.now KeptRa)) }
{
    push_text(out, b"(")?;
    push_reached(out, on, Dest::Call)?;
    push_text(out, b")?(")?;
    push_return_address(out, on)?;
    push_text(out, b"):n_ra")
}

/// Puts the return address.
#[tactic(auto, unfolding(crate::specs::Texts::register_rest))]
fn push_return(out: &mut Vec<u8>, on: &On<'_>, declares: bool) -> Result<(), AllocError>
    ensures { let M = on.now.m.now in
        OnOk result (out.new.items ≡ out.old.items
        ++ register_line declares 32 false (codes "n_ra") (text_of M (r.kept_next M KeptRa))) }
{
    start_register(out, declares, 32, false)?;
    push_text(out, b"n_ra")?;
    if declares {
        return push_text(out, b";\n");
    }
    push_text(out, b" <= ")?;
    push_next_return(out, on)?;
    push_text(out, b";\n")
}

/// Puts a register of control: its name, and what it becomes.
#[tactic(auto, unfolding(crate::specs::Texts::register_rest))]
fn push_state(
    out: &mut Vec<u8>,
    declares: bool,
    width: u32,
    restarts: bool,
    name: &[u8],
    next: &[u8],
) -> Result<(), AllocError>
    ensures { OnOk result (out.new.items ≡ out.old.items
        ++ register_line declares width restarts name.now next.now) }
{
    start_register(out, declares, width, restarts)?;
    push_text(out, name)?;
    if declares {
        return push_text(out, b";\n");
    }
    push_text(out, b" <= ")?;
    push_text(out, next)?;
    push_text(out, b";\n")
}

/// Puts whether the machine has halted at the next clock, which may begin anew.
#[tactic(auto, unfolding(tta_verilog::specs::Expressions::between, tta_verilog::specs::Expressions::choice))]
fn push_halted_next(out: &mut Vec<u8>, on: &On<'_>) -> Result<(), AllocError>
    ensures { let T = text_of on.now.m.now in
        OnOk result (out.new.items ≡ out.old.items ++ T (r.becomes on.now.m.now s.HasHalted)) }
{
    push_text(out, b"(reset)?(")?;
    push_constant(out, 1, 0)?;
    push_text(out, b"):(n_lands)&&(n_ends_now)")
}

/// Puts whether the machine has halted.
#[tactic(auto, unfolding(crate::specs::Texts::register_rest))]
fn push_halted(out: &mut Vec<u8>, on: &On<'_>, declares: bool) -> Result<(), AllocError>
    ensures { let M = on.now.m.now in
        OnOk result (out.new.items ≡ out.old.items
        ++ register_line declares 1 true (codes "n_halted") (text_of M (r.becomes M s.HasHalted))) }
{
    start_register(out, declares, 1, true)?;
    push_text(out, b"n_halted")?;
    if declares {
        return push_text(out, b";\n");
    }
    push_text(out, b" <= ")?;
    push_halted_next(out, on)?;
    push_text(out, b";\n")
}

/// Puts the lines of what says whether control moves take effect in the next cycle or later.
fn push_underway_lines(out: &mut Vec<u8>, on: &On<'_>, declares: bool) -> Result<(), AllocError>
    ensures { let M = on.now.m.now in
        OnOk result (out.new.items ≡ out.old.items
        ++ flat_map (underway_line M declares) (range_with_len 1 M.control.delay)) }
{
    let m = on.m;
    for before in 0..m.control.delay {
        push_underway(out, on, declares, before + 1)?;
    }
    Ok(())
}

/// Puts whether control moves take effect in the next cycle or later.
fn push_underways(out: &mut Vec<u8>, on: &On<'_>, declares: bool) -> Result<(), AllocError>
    ensures { let M = on.now.m.now in
        OnOk result (out.new.items ≡ out.old.items ++ registers_text M declares (underways M)) }
{
    push_underway_lines(out, on, declares)
}

/// Puts the address of the instruction.
fn push_pc(out: &mut Vec<u8>, on: &On<'_>, declares: bool) -> Result<(), AllocError>
    ensures { OnOk result (out.new.items ≡ out.old.items ++ line_of on.now.m.now declares s.Pc) }
{
    let m = on.m;
    push_state(
        out,
        declares,
        u32::from(m.control.address),
        true,
        b"n_pc",
        b"n_next_pc",
    )
}

/// Puts the word of the instruction.
fn push_word(out: &mut Vec<u8>, on: &On<'_>, declares: bool) -> Result<(), AllocError>
    ensures { OnOk result
        (out.new.items ≡ out.old.items ++ line_of on.now.m.now declares s.Whole) }
{
    push_state(
        out,
        declares,
        on.layout.width,
        true,
        b"n_word",
        b"code(n_next_pc)",
    )
}

/// Puts the registers of control.
pub fn push_states(out: &mut Vec<u8>, on: &On<'_>, declares: bool) -> Result<(), AllocError>
    ensures { let M = on.now.m.now in
        OnOk result (out.new.items ≡ out.old.items
        ++ registers_text M declares (underways M ++ fixed)) }
{
    push_underways(out, on, declares)?;
    push_return(out, on, declares)?;
    push_pc(out, on, declares)?;
    push_word(out, on, declares)?;
    push_halted(out, on, declares)?;
    push_state(out, declares, 32, false, b"n_goal", b"n_goal_now")?;
    push_state(out, declares, 1, false, b"n_ends", b"n_ends_now")
}
