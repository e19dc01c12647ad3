//! The operations that units offer.

ghost use Rattle.std.specs.Prelude.{◌≡◌, ◌<◌, ◌≤◌, true, nat_le, length};
ghost use Rattle.std.specs.List.{list_all};
ghost use Rattle.tta_arch.specs.Joins.{has_bit};
ghost use Rattle.tta_connect.specs.Coverage.{first_by, call_if, call_in, offered, anywhere};

use tta_arch::{Machine, Op, Unit, UnitOp, same_op};

/// An operation of a unit: the unit, the operation's number there, and what it is.
#[derive(Clone, Copy, Debug, PartialEq, Eq)]
pub struct Call {
    pub unit: u8,
    pub op: u8,
    pub does: UnitOp,
}

/// An operation of a unit, if it is the one that is asked for.
fn call_if(op: Op, unit: u8, k: u8, o: UnitOp) -> Option<Call>
    ensures { result ≡ call_if op unit k o }
{
    if same_op(o.op, op) {
        Some(Call {
            unit,
            op: k,
            does: o,
        })
    } else {
        None
    }
}

/// The operation of a unit that is asked for.
#[tactic(auto, using(crate::proofs::Firsts::first_from, crate::proofs::Firsts::first_none))]
fn call_among(ops: &[UnitOp], unit: u8, op: Op) -> Option<Call>
    requires { length ops.now ≤ 32 }
    ensures { result ≡ first_by (call_if op unit) 0 ops.now }
{
    for (k, o) in ops.iter().enumerate() {
        let found = call_if(op, unit, k as u8, *o);
        if found.is_some() {
            return found;
        }
    }
    None
}

/// Whether a set of units has this one.
fn has_unit(usable: u32, unit: u8) -> bool
    requires { unit < 32 }
    ensures { result ≡ has_bit usable unit }
{
    (usable >> unit) % 2 == 1
}

/// The operation of a unit that is asked for, if the unit is usable.
fn call_in(usable: u32, op: Op, unit: u8, v: &Unit) -> Option<Call>
    requires unit { unit < 32 }
    requires few { length v.now.ops ≤ 32 }
    ensures { result ≡ call_in (has_bit usable) op unit v.now }
{
    if has_unit(usable, unit) {
        call_among(v.ops.as_slice(), unit, op)
    } else {
        None
    }
}

/// The operation at the first of some units that offers it and is usable.
#[tactic(auto, using(crate::proofs::Firsts::first_from, crate::proofs::Firsts::first_none))]
fn offered_in(units: &[Unit], usable: u32, op: Op) -> Option<Call>
    requires units { length units.now ≤ 32 }
    requires few { list_all (λ v. nat_le (length v.ops) 32) units.now ≡ true }
    ensures { result ≡ first_by (call_in (has_bit usable) op) 0 units.now }
{
    for (k, v) in units.iter().enumerate() {
        let found = call_in(usable, op, k as u8, v);
        if found.is_some() {
            return found;
        }
    }
    None
}

/// The operation at the first usable unit that offers it, where the usable units are one bit each.
/// It is None exactly where no such unit does.
#[tactic(auto, using(crate::proofs::Few::few_units, crate::proofs::Few::few_ops))]
pub fn offered(m: &Machine, usable: u32, op: Op) -> Option<Call>
    ensures { result ≡ offered m.now usable op }
{
    offered_in(m.units.as_slice(), usable, op)
}

/// The operation at the first of some units that offers it.
#[tactic(auto, using(crate::proofs::Firsts::first_from, crate::proofs::Firsts::first_none))]
fn first_in(units: &[Unit], op: Op) -> Option<Call>
    requires units { length units.now ≤ 32 }
    requires few { list_all (λ v. nat_le (length v.ops) 32) units.now ≡ true }
    ensures { result ≡ first_by (λ unit v. first_by (call_if op unit) 0 v.ops) 0 units.now }
{
    for (k, v) in units.iter().enumerate() {
        let found = call_among(v.ops.as_slice(), k as u8, op);
        if found.is_some() {
            return found;
        }
    }
    None
}

/// The operation at the first unit that offers it, usable or not. It is None exactly where no unit
/// does.
#[tactic(auto, using(crate::proofs::Few::few_units, crate::proofs::Few::few_ops))]
pub fn anywhere(m: &Machine, op: Op) -> Option<Call>
    ensures { result ≡ anywhere m.now op }
{
    first_in(m.units.as_slice(), op)
}
