//! The registers of loads, as parts of the circuit.

ghost use Rattle.std.specs.Prelude.{◌≡◌, ◌+◌, ◌≤◌, length};
ghost use Rattle.std.specs.List.{enumerate_from, flat_map};
ghost use Rattle.tta_cost.specs.Tally.{registers_put};
ghost use Rattle.tta_hardware.specs.Hardware as h;

use crate::parts::{Part, Parts};
use crate::registers as regs;
use crate::results::is_load;
use crate::rows::{Clock, register};
use crate::starts::start_line;
use tta_arch::{Unit, UnitOp};

/// Puts the registers of an operation of a unit, if it is a load.
fn put_load(parts: &mut Parts, of: &Clock<'_>, unit: u8, op: u8, o: UnitOp)
    ensures { let T = of.now.on.now.applied.now in let M = of.now.on.now.m.now in
        parts.new ≡ registers_put T M (h.load_registers unit (op, o)) parts.old }
{
    if !is_load(o.op) {
        return;
    }
    let on = of.on;
    let began = start_line(on, unit, op);
    parts.put(Part::Results, register(of, 1, false, began));
    let raw = regs::raw_next(on, unit, op);
    parts.put(Part::Results, register(of, 32, false, raw));
    let inside = regs::inside_next(on, unit, op);
    parts.put(Part::Results, register(of, 1, false, inside));
}

/// Puts the registers of the loads of a unit, these being its operations from one on.
fn put_loads(parts: &mut Parts, of: &Clock<'_>, unit: u8, op: u8, ops: &[UnitOp])
    requires few { op + length ops.now ≤ 255 }
    ensures { let T = of.now.on.now.applied.now in let M = of.now.on.now.m.now in
        parts.new ≡ registers_put T M (flat_map (h.load_registers unit)
        (enumerate_from op ops.now)) parts.old }
{
    match ops {
        [] => {}
        [o, rest @ ..] => {
            put_load(parts, of, unit, op, *o);
            put_loads(parts, of, unit, op + 1, rest);
        }
    }
}

/// Puts the registers of all loads of a unit.
pub fn put_all_loads(parts: &mut Parts, of: &Clock<'_>, unit: u8, u: &Unit)
    requires few { length u.now.ops ≤ 255 }
    ensures { let T = of.now.on.now.applied.now in let M = of.now.on.now.m.now in
        parts.new ≡ registers_put T M (flat_map (h.load_registers unit)
        (enumerate_from 0 u.now.ops)) parts.old }
{
    put_loads(parts, of, unit, 0, u.ops.as_slice());
}
