//! The registers of units, and all registers.

ghost use Rattle.std.specs.Prelude.{◌≡◌, ◌+◌, ◌-◌, ◌<◌, ◌≤◌, ◌++◌, true, length, OnOk};
ghost use Rattle.std.specs.List.{enumerate_from, flat_map, list_all, range_with_len};
ghost use Rattle.tta_arch.specs.Rules.{is_unit};
ghost use Rattle.tta_boxed_rtl.specs.Left.{lefts, told_by};
ghost use Rattle.tta_boxed_rtl.specs.Texts as x;
ghost use Rattle.tta_hardware.specs.Wires as w;

use crate::at::At;
use crate::comings::{push_due_next, push_port_next};
use crate::froms::push_froms;
use crate::left::Left;
use std::alloc::AllocError;
use tta_arch::Unit;
use tta_rtl::{
    OpWord, UnitWord, later_delays, push_all_dues, push_kept, push_loads, push_op_word,
    push_operand_port, push_states, push_unit_word, start_register,
};
use tta_trap_rtl::push_watches;
use tta_verilog::push_text;

/// Puts the result port of a unit.
#[tactic(auto, unfolding(tta_rtl::specs::Texts::register_rest, crate::specs::Texts::port_line))]
fn push_port(out: &mut Vec<u8>, at: &At<'_>, declares: bool, unit: u8) -> Result<(), AllocError>
    ensures { let M = at.now.on.now.m.now in let L = told_by at.now.leaves.now in
        OnOk result (out.new.items ≡ out.old.items ++ x.port_line M L declares unit) }
{
    start_register(out, declares, 32, false)?;
    push_unit_word(out, at.on.m, UnitWord::Result, unit)?;
    if declares {
        return push_text(out, b";\n");
    }
    push_text(out, b" <= ")?;
    push_port_next(out, at, unit)?;
    push_text(out, b";\n")
}

/// Puts the word of a unit that is due in so many cycles.
#[tactic(auto, unfolding(tta_rtl::specs::Texts::register_rest, crate::specs::Texts::due_line))]
fn push_due(
    out: &mut Vec<u8>,
    at: &At<'_>,
    declares: bool,
    unit: u8,
    delay: u8,
) -> Result<(), AllocError>
    requires later { delay < 255 }
    ensures { let M = at.now.on.now.m.now in let L = told_by at.now.leaves.now in
        OnOk result (out.new.items ≡ out.old.items ++ x.due_line M L declares unit delay) }
{
    start_register(out, declares, 32, false)?;
    push_op_word(out, at.on.m, OpWord::Due, unit, delay)?;
    if declares {
        return push_text(out, b";\n");
    }
    push_text(out, b" <= ")?;
    push_due_next(out, at, unit, delay)?;
    push_text(out, b";\n")
}

/// Puts the words of a unit that are due, for so many delays from one on.
fn push_dues(
    out: &mut Vec<u8>,
    at: &At<'_>,
    declares: bool,
    unit: u8,
    delay: u8,
    count: u8,
) -> Result<(), AllocError>
    requires few { delay + count ≤ 255 }
    ensures { let M = at.now.on.now.m.now in let L = told_by at.now.leaves.now in
        OnOk result (out.new.items ≡ out.old.items
        ++ flat_map (x.due_line M L declares unit) (range_with_len delay count)) }
{
    if count == 0 {
        return Ok(());
    }
    push_due(out, at, declares, unit, delay)?;
    push_dues(out, at, declares, unit, delay + 1, count - 1)
}

/// Puts the words of a unit that are due, for all delays.
fn push_due_words(
    out: &mut Vec<u8>,
    at: &At<'_>,
    declares: bool,
    unit: u8,
) -> Result<(), AllocError>
    ensures { let M = at.now.on.now.m.now in let L = told_by at.now.leaves.now in
        OnOk result (out.new.items ≡ out.old.items
        ++ flat_map (x.due_line M L declares unit) (range_with_len 1 (w.longest M unit - 1))) }
{
    push_dues(out, at, declares, unit, 1, later_delays(at.on.m, unit))
}

/// Puts the registers of a unit.
fn push_unit(
    out: &mut Vec<u8>,
    at: &At<'_>,
    declares: bool,
    unit: u8,
    u: &Unit,
) -> Result<(), AllocError>
    requires few { length u.now.ops ≤ 255 }
    ensures { let M = at.now.on.now.m.now in let L = told_by at.now.leaves.now in
        OnOk result (out.new.items ≡ out.old.items ++ x.unit_lines M L declares (unit, u.now)) }
{
    push_operand_port(out, at.on, declares, unit)?;
    push_port(out, at, declares, unit)?;
    push_all_dues(out, at.on, declares, unit)?;
    push_due_words(out, at, declares, unit)?;
    push_loads(out, at.on, declares, unit, u)
}

/// Puts the registers of units, from one on.
fn push_units_from(
    out: &mut Vec<u8>,
    at: &At<'_>,
    declares: bool,
    unit: u8,
    units: &[Unit],
) -> Result<(), AllocError>
    requires few { unit + length units.now ≤ 255 }
    requires rules { list_all (is_unit at.now.on.now.m.now.sockets) units.now ≡ true }
    ensures { let M = at.now.on.now.m.now in let L = told_by at.now.leaves.now in
        OnOk result (out.new.items ≡ out.old.items
        ++ flat_map (x.unit_lines M L declares) (enumerate_from unit units.now)) }
{
    match units {
        [] => Ok(()),
        [u, rest @ ..] => {
            push_unit(out, at, declares, unit, u)?;
            push_units_from(out, at, declares, unit + 1, rest)
        }
    }
}

/// Puts the registers of all units.
fn push_units(out: &mut Vec<u8>, at: &At<'_>, declares: bool) -> Result<(), AllocError>
    ensures { let M = at.now.on.now.m.now in let L = told_by at.now.leaves.now in
        OnOk result (out.new.items ≡ out.old.items
        ++ flat_map (x.unit_lines M L declares) (enumerate_from 0 M.units)) }
{
    let m = at.on.m;
    push_units_from(out, at, declares, 0, m.units.as_slice())
}

/// Puts the registers of a circuit that tells no faults.
fn push_plain(out: &mut Vec<u8>, at: &At<'_>, declares: bool) -> Result<(), AllocError>
    ensures { let M = at.now.on.now.m.now in let L = told_by at.now.leaves.now in
        OnOk result (out.new.items ≡ out.old.items ++ x.plain_lines M L declares) }
{
    push_kept(out, at.on, declares)?;
    push_units(out, at, declares)?;
    push_states(out, at.on, declares)
}

/// Puts those that only a circuit has that tells faults, if it does.
fn push_telling(
    out: &mut Vec<u8>,
    at: &At<'_>,
    faults: bool,
    declares: bool,
) -> Result<(), AllocError>
    ensures { let M = at.now.on.now.m.now in
        OnOk result (out.new.items ≡ out.old.items ++ x.telling_lines M faults declares) }
{
    if faults {
        push_watches(out, at.on, declares)
    } else {
        Ok(())
    }
}

/// Puts all registers, these being the operations that are left.
pub fn push_registers(
    out: &mut Vec<u8>,
    at: &At<'_>,
    faults: bool,
    declares: bool,
    left: &[Left],
) -> Result<(), AllocError>
    ensures { let M = at.now.on.now.m.now in let L = told_by at.now.leaves.now in
        OnOk result (out.new.items ≡ out.old.items ++ (x.plain_lines M L declares
        ++ (x.telling_lines M faults declares
        ++ flat_map (x.left_lines M L declares) (lefts left.now)))) }
{
    push_plain(out, at, declares)?;
    push_telling(out, at, faults, declares)?;
    push_froms(out, at, declares, left)
}
