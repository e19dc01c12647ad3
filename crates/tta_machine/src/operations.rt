//! The declaration of an operation of a unit.

ghost use Rattle.std.specs.Prelude.{◌≡◌, ◌==◌, ◌<◌, ◌&&◌, ◌||◌, map, true, false, not, is_none};
ghost use Rattle.std.specs.Prelude.{length, nat_le, slice_get, slice_set, Some, Err, IfSome, OnOk};
ghost use Rattle.std.specs.List.{list_any};
ghost use Rattle.std.specs.Option.{option_map_or};
ghost use Rattle.tta_parse.specs.Lines.{plain};
ghost use Rattle.tta_parse.specs.declared.line_error.LineError.TheVariants.{NoMemory};
ghost use Rattle.tta_parse.specs.Taken.{Takes};
ghost use Rattle.tta_ops.specs.Set.{stated};
ghost use Rattle.tta_machine.specs.Forms.{op_form};
ghost use Rattle.tta_machine.specs.Declarations.{take_op, timed_op, untimed_op, op_named};
ghost use Rattle.tta_machine.specs.Declarations.{arity_of, is_latency, is_served, with_op};
ghost use Rattle.tta_arch.specs.declared.parts.Unit.{Unit as UnitSeen};
ghost use Rattle.tta_arch.specs.Effects.{has_result};
ghost use Rattle.tta_arch.specs.Rules.{same_op};
ghost use Rattle.tta_machine.specs.Seen.{formed};
ghost use Rattle.tta_machine.specs.Services.{IsOffered};

use crate::draft::Draft;
use crate::limits::{MOST_LATENCY, MOST_OPS, is_from_to};
use crate::refusal::{LineError, Refusal};
use crate::services::is_served;
use crate::syntax;
use std::alloc::AllocError;
use tta_arch::{Op, Unit, UnitOp, same_op};
use tta_list::entry_at;
use tta_ops::UnitSet;
use tta_parse::Word;

impl Draft {
    /// Adds an operation to a unit by the words after `op`. It is refused as `Syntax` where they
    /// have another form, as `Unknown` where the unit is not there or nothing offers an operation
    /// of this name in a line of this form, as `Twice` where the unit has it already or another
    /// unit serves the same space or the streams, as `Range` where the latency is not from 1 to 16
    /// or the unit has 32 operations, and as `Missing` where it takes two words and the unit has no
    /// operand port, or has a result and the unit no result port.
    #[tactic(auto, unfolding(crate::specs::Declarations::take_op))]
    pub fn take_op(&mut self, units: &UnitSet, words: &[Word]) -> Result<(), LineError>
        ensures { let U = stated unit_meaning units.now in
            Takes self.new result
            (formed (op_form (map plain words.now)) (take_op U self.old)) }
    {
        let Some(form) = syntax::op_form(words) else {
            return Err(LineError::Refused(Refusal::Syntax));
        };
        let Some(place) = self.unit_named(form.unit) else {
            return Err(LineError::Refused(Refusal::Unknown));
        };
        let Some(unit) = entry_at(self.units.as_slice(), place) else {
            return Err(LineError::Refused(Refusal::Unknown));
        };
        let Some(op) = op_named(units, form.latency, form.operation) else {
            return Err(LineError::Refused(Refusal::Unknown));
        };
        let place = place as usize;
        if is_twice(self.units.as_slice(), place, unit, op) {
            return Err(LineError::Refused(Refusal::Twice));
        }
        if is_outside(unit, form.latency) {
            return Err(LineError::Refused(Refusal::Range));
        }
        let arity = arity_of(units, op);
        if lacks_port(unit, op, arity) {
            return Err(LineError::Refused(Refusal::Missing));
        }
        let latency = cycles(form.latency);
        let added = UnitOp { op, arity, latency };
        match self.push_op(place, added) {
            Ok(()) => Ok(()),
            Err(_) => Err(LineError::NoMemory),
        }
    }

    /// Puts an operation after the others of a unit.
    fn push_op(&mut self, place: usize, added: UnitOp) -> Result<(), AllocError>
        requires { place < length self.old.units }
        ensures ok { (unit : UnitSeen) → slice_get self.old.units place ≡ Some unit
            → OnOk result (
            let units = slice_set self.old.units place (with_op unit added) in
            self.new ≡ record self.old { units = units }) }
    {
        self.units.at_mut(place).ops.push(added)?;
        Ok(())
    }
}

/// The operation of a name, in a line with a latency or without one.
fn op_named(units: &UnitSet, latency: Option<u32>, name: &[u8]) -> Option<Op>
    ensures value { result ≡ op_named (stated unit_meaning units.now) latency name.now }
    ensures offered { IfSome result (λ op. IsOffered (stated unit_meaning units.now) op) }
{
    match latency {
        Some(_) => timed_op(units, name),
        None => untimed_op(name),
    }
}

/// The operation of a name, if it has a result and so a latency.
fn timed_op(units: &UnitSet, name: &[u8]) -> Option<Op>
    ensures value { result ≡ timed_op (stated unit_meaning units.now) name.now }
    ensures offered { IfSome result (λ op. IsOffered (stated unit_meaning units.now) op) }
{
    if name == b"ldw".as_slice() {
        return Some(Op::Ldw);
    }
    if name == b"ldf".as_slice() {
        return Some(Op::Ldf);
    }
    if name == b"in".as_slice() {
        return Some(Op::Take);
    }
    match units.find_bytes(name) {
        Some(id) => Some(Op::Set(id)),
        None => None,
    }
}

/// The operation of a name, if it has no result.
fn untimed_op(name: &[u8]) -> Option<Op>
    ensures { result ≡ untimed_op name.now }
{
    if name == b"stw".as_slice() {
        return Some(Op::Stw);
    }
    if name == b"stf".as_slice() {
        return Some(Op::Stf);
    }
    if name == b"out".as_slice() {
        return Some(Op::Out);
    }
    None
}

/// How many words an operation takes.
fn arity_of(units: &UnitSet, op: Op) -> u8
    requires { IsOffered (stated unit_meaning units.now) op }
    ensures { result ≡ arity_of (stated unit_meaning units.now) op }
{
    match op {
        Op::Ldw | Op::Ldf | Op::Out | Op::Take => 1,
        Op::Stw | Op::Stf => 2,
        Op::Set(id) => units.arity(id),
    }
}

/// Whether the unit at a place has the operation already, or another unit serves what it serves.
fn is_twice(units: &[Unit], place: usize, unit: &Unit, op: Op) -> bool
    ensures { result ≡ (list_any (λ p. same_op p.op op) unit.now.ops
        || is_served units.now place op) }
{
    has_same(unit, op) || is_served(units, place, op)
}

/// Whether the latency is outside its range, or the unit has as many operations as it may.
fn is_outside(unit: &Unit, latency: Option<u32>) -> bool
    ensures value { result ≡ (not (is_latency latency) || nat_le 32 (length unit.now.ops)) }
    ensures latency { result ≡ false → is_latency latency ≡ true }
{
    !is_latency(latency) || unit.ops.len() >= MOST_OPS
}

/// Whether a unit has this operation.
fn has_same(unit: &Unit, op: Op) -> bool
    ensures { result ≡ list_any (λ p. same_op p.op op) unit.now.ops }
{
    unit.ops
        .as_slice()
        .iter()
        .any(|offered| same_op(offered.op, op))
}

/// Whether the unit lacks a port that the operation needs.
fn lacks_port(unit: &Unit, op: Op, arity: u8) -> bool
    ensures { result ≡ ((arity == 2 && is_none unit.now.operand)
        || (has_result op && is_none unit.now.result)) }
{
    (arity == 2 && unit.operand.is_none()) || (op.has_result() && unit.result.is_none())
}

/// Whether a latency is between 1 and 16 cycles, or none is given.
fn is_latency(latency: Option<u32>) -> bool
    ensures { result ≡ is_latency latency }
{
    match latency {
        Some(latency) => is_from_to(1, MOST_LATENCY, latency),
        None => true,
    }
}

/// The latency, and 0 where the line gives none.
fn cycles(latency: Option<u32>) -> u8
    requires { is_latency latency ≡ true }
    ensures { result ≡ option_map_or (λ l. l) latency 0 }
{
    match latency {
        Some(latency) => latency as u8,
        None => 0,
    }
}
