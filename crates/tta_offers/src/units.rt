//! The units of a machine by their numbers.

ghost use Rattle.std.specs.Prelude.{◌≡◌, ◌≤◌, true, IfSome, length, slice_get, option_copied};
ghost use Rattle.std.specs.List.{list_all, enumerate_from};
ghost use Rattle.tta_arch.specs.Effects.{op_at};
ghost use Rattle.tta_arch.specs.Rules.{is_unit};
ghost use Rattle.tta_hardware.specs.Wires as w;

use tta_arch::{Machine, Unit, UnitOp};

/// The units of a machine.
fn units_of(m: &Machine) -> &[Unit]
    ensures all { result.now ≡ m.now.units }
    ensures rules { list_all (is_unit m.now.sockets) result.now ≡ true }
{
    m.units.as_slice()
}

/// A unit, if the machine has it.
fn unit_at(m: &Machine, unit: u8) -> Option<&Unit>
    ensures all { option_copied result ≡ slice_get m.now.units unit }
    ensures rules { IfSome result (λ u. is_unit m.now.sockets u.now ≡ true) }
{
    units_of(m).get(usize::from(unit))
}

/// The operations of a unit, and none where the machine has no such unit.
pub fn ops_at(m: &Machine, unit: u8) -> &[UnitOp]
    ensures all { w.ops_of m.now unit ≡ enumerate_from 0 result.now }
    ensures few { length result.now ≤ 32 }
{
    match unit_at(m, unit) {
        None => &[],
        Some(u) => u.ops.as_slice(),
    }
}

/// An operation of a unit, if there is one.
pub fn op_at(m: &Machine, unit: u8, op: u8) -> Option<UnitOp>
    ensures { result ≡ op_at m.now unit op }
{
    match unit_at(m, unit) {
        None => None,
        Some(u) => u.ops.as_slice().get(usize::from(op)).copied(),
    }
}

/// The longest latency of some operations.
fn longest_in(ops: &[UnitOp]) -> u8
    ensures { result ≡ w.longest_in ops.now }
{
    match ops {
        [] => 0,
        [o, rest @ ..] => o.latency.max(longest_in(rest)),
    }
}

/// The longest latency of a unit.
pub fn longest(m: &Machine, unit: u8) -> u8
    ensures { result ≡ w.longest m.now unit }
{
    match unit_at(m, unit) {
        None => 0,
        Some(u) => longest_in(u.ops.as_slice()),
    }
}
