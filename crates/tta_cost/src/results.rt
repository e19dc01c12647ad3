//! What operations show, and when.

ghost use Rattle.std.specs.Prelude.{◌≡◌, ◌+◌, ◌≤◌, ◌==◌, ◌&&◌, if◌then◌else◌, map, filter, length};
ghost use Rattle.std.specs.List.{enumerate_from};
ghost use Rattle.tta_arch.specs.Effects.{has_result};
ghost use Rattle.tta_circuit.specs.Circuit as c;
ghost use Rattle.tta_cost.specs.Chains.{bits_of, first_cost};
ghost use Rattle.tta_cost.specs.Depths.{cost_of};
ghost use Rattle.tta_hardware.specs.Chains.{any_of, first_of};
ghost use Rattle.tta_hardware.specs.Signals as s;
ghost use Rattle.tta_hardware.specs.Wires as w;

use crate::on::On;
use crate::starts::{operand_line, start_line, trigger_line};
use tta_arch::{Op, UnitOp};
use tta_measure::Cost;
use tta_offers::{longest, ops_at};

/// Whether an operation loads a word of a space.
pub fn is_load(op: Op) -> bool
    ensures { result ≡ w.is_load op }
{
    match op {
        Op::Ldw | Op::Ldf => true,
        Op::Stw | Op::Stf | Op::Out | Op::Take | Op::Set(_) => false,
    }
}

/// Whether a load's result shows after so many cycles.
fn loads_in(o: UnitOp, latency: u8) -> bool
    ensures { result ≡ (w.is_load o.op && o.latency == latency) }
{
    is_load(o.op) && o.latency == latency
}

/// Whether an operation's result shows after so many cycles.
fn shows_in(o: UnitOp, latency: u8) -> bool
    ensures { result ≡ (has_result o.op && o.latency == latency) }
{
    o.op.has_result() && o.latency == latency
}

/// Whether a load began at the clock before.
#[tactic(auto, using(crate::proofs::Depths::known))]
fn began(on: &On<'_>, _unit: u8, _op: u8) -> Cost
    ensures { let T = on.now.applied.now in let M = on.now.m.now in
        result ≡ cost_of T M (c.Signal (s.HasBegun _unit _op)) }
{
    Cost::free()
}

/// The word that a load has read.
#[tactic(auto, using(crate::proofs::Depths::known))]
fn read_word(on: &On<'_>, _unit: u8, _op: u8) -> Cost
    ensures { let T = on.now.applied.now in let M = on.now.m.now in
        result ≡ cost_of T M (w.read_word _unit _op) }
{
    Cost::choice(32, Cost::free(), Cost::free(), Cost::free())
}

/// The words of some loads of a unit, these being those from one on, that began at the clock before
/// and have this latency, before another word.
fn fresh_from(on: &On<'_>, unit: u8, latency: u8, op: u8, ops: &[UnitOp], other: Cost) -> Cost
    requires few { op + length ops.now ≤ 255 }
    ensures { let T = on.now.applied.now in let M = on.now.m.now in
        result ≡ first_cost T M (map (λ o. (c.Signal (s.HasBegun unit o.0), w.read_word unit o.0))
        (filter (λ o. w.is_load o.1.op && o.1.latency == latency) (enumerate_from op ops.now))) other }
{
    match ops {
        [] => other,
        [o, rest @ ..] => {
            let more = fresh_from(on, unit, latency, op + 1, rest, other);
            if !loads_in(*o, latency) {
                return more;
            }
            Cost::choice(32, began(on, unit, op), read_word(on, unit, op), more)
        }
    }
}

/// A word, or that of the load of a unit with this latency that began at the clock before.
pub fn fresh(on: &On<'_>, unit: u8, latency: u8, other: Cost) -> Cost
    ensures { let T = on.now.applied.now in let M = on.now.m.now in
        result ≡ first_cost T M (map (λ o. (c.Signal (s.HasBegun unit o.0), w.read_word unit o.0))
        (w.loads M unit latency)) other }
{
    fresh_from(on, unit, latency, 0, ops_at(on.m, unit), other)
}

/// The word that the result port of a unit shows.
#[tactic(auto, using(crate::proofs::Chains::first_is, crate::proofs::Depths::known))]
pub fn port(on: &On<'_>, unit: u8) -> Cost
    ensures { let T = on.now.applied.now in let M = on.now.m.now in
        result ≡ cost_of T M (w.made_of M (s.Port unit)) }
{
    fresh(on, unit, 1, Cost::free())
}

/// The word that the result port of a unit shows, where it is read.
#[tactic(auto, using(crate::proofs::Depths::line_is))]
pub fn port_line(on: &On<'_>, unit: u8) -> Cost
    ensures { let T = on.now.applied.now in let M = on.now.m.now in
        result ≡ cost_of T M (c.Signal (s.Port unit)) }
{
    port(on, unit).read()
}

/// Whether one of those operations of a unit starts, of these from one on, whose results show after
/// so many cycles.
fn begins_from(on: &On<'_>, unit: u8, latency: u8, op: u8, ops: &[UnitOp]) -> Cost
    requires few { op + length ops.now ≤ 255 }
    ensures { let T = on.now.applied.now in let M = on.now.m.now in
        result ≡ cost_of T M (any_of (map (λ o. c.Signal (s.Starts unit o.0))
        (filter (λ o. has_result o.1.op && o.1.latency == latency) (enumerate_from op ops.now)))) }
{
    match ops {
        [] => Cost::free(),
        [o, rest @ ..] => {
            let more = begins_from(on, unit, latency, op + 1, rest);
            if !shows_in(*o, latency) {
                return more;
            }
            start_line(on, unit, op).gate(more)
        }
    }
}

/// Whether one of those operations of a unit starts whose results show after so many cycles.
pub fn begins(on: &On<'_>, unit: u8, latency: u8) -> Cost
    ensures { let T = on.now.applied.now in let M = on.now.m.now in
        result ≡ cost_of T M (w.begins M unit latency) }
{
    begins_from(on, unit, latency, 0, ops_at(on.m, unit))
}

/// The depth of an operation by its number.
fn applied(on: &On<'_>, op: u32) -> u64
    ensures { result ≡ Rattle.std.specs.Prelude.slice_index on.now.applied.now op }
{
    match on.applied.get(op as usize) {
        Some(depth) => *depth,
        None => 0,
    }
}

/// A unit with its words where they are read.
#[derive(Clone, Copy)]
struct Unit<'a> {
    on: &'a On<'a>,
    number: u8,
    operand: Cost,
    trigger: Cost,
    ghost operand_is: { operand ≡ cost_of on.now.applied.now on.now.m.now (c.Signal (s.Operand number)) },
    ghost trigger_is: { trigger ≡ cost_of on.now.applied.now on.now.m.now (c.Signal (s.Trigger number)) },
}

/// The first word that an operation takes: 0 where it takes one alone.
fn first_word(of: &Unit<'_>, o: UnitOp) -> Cost
    ensures { let T = of.now.on.now.applied.now in let M = of.now.on.now.m.now in
        result ≡ cost_of T M (if o.arity == 2 then c.Signal (s.Operand of.now.number) else w.nothing) }
{
    if o.arity == 2 {
        of.operand
    } else {
        Cost::free()
    }
}

/// The word that an operation shows; a load has none yet.
#[tactic(auto, using(crate::proofs::Depths::known))]
fn result_word(of: &Unit<'_>, o: UnitOp) -> Cost
    ensures cost { let T = of.now.on.now.applied.now in let M = of.now.on.now.m.now in
        result ≡ cost_of T M (w.result_of M of.now.number o) }
    ensures bits { let M = of.now.on.now.m.now in bits_of M (w.result_of M of.now.number o) ≡ 32 }
{
    match o.op {
        Op::Set(id) => first_word(of, o)
            .beside(of.trigger)
            .behind(applied(of.on, id.0)),
        Op::Ldw | Op::Stw | Op::Ldf | Op::Stf | Op::Out | Op::Take => Cost::free(),
    }
}

/// The results of some operations of a unit, these being those from one on, that show after so many
/// cycles, each after the test whether it starts.
fn made_from(of: &Unit<'_>, latency: u8, op: u8, ops: &[UnitOp]) -> Cost
    requires few { op + length ops.now ≤ 255 }
    ensures { let T = of.now.on.now.applied.now in let M = of.now.on.now.m.now in
        let U = of.now.number in
        result ≡ cost_of T M (first_of (map (λ o. (c.Signal (s.Starts U o.0), w.result_of M U o.1))
        (filter (λ o. has_result o.1.op && o.1.latency == latency) (enumerate_from op ops.now))) w.nothing) }
{
    match ops {
        [] => Cost::free(),
        [o, rest @ ..] => {
            let more = made_from(of, latency, op + 1, rest);
            if !shows_in(*o, latency) {
                return more;
            }
            let starts = start_line(of.on, of.number, op);
            Cost::choice(32, starts, result_word(of, *o), more)
        }
    }
}

/// The result of the operation of a unit that starts and shows after so many cycles.
pub fn made(on: &On<'_>, unit: u8, latency: u8) -> Cost
    ensures { let T = on.now.applied.now in let M = on.now.m.now in
        result ≡ cost_of T M (w.made M unit latency) }
{
    let of = Unit {
        on: &*on,
        number: unit,
        operand: operand_line(on, unit),
        trigger: trigger_line(on, unit),
    };
    made_from(&of, latency, 0, ops_at(on.m, unit))
}

/// Whether a result of a unit is due in so many cycles.
#[tactic(auto, using(crate::proofs::Depths::known))]
pub fn is_coming(on: &On<'_>, unit: u8, delay: u8) -> Cost
    ensures { let T = on.now.applied.now in let M = on.now.m.now in
        result ≡ cost_of T M (w.is_coming M unit delay) }
{
    if delay < longest(on.m, unit) {
        Cost::free()
    } else {
        Cost::free()
    }
}

/// The word that is due in so many cycles, or that of a load that began at the clock before and is due
/// at the same time.
#[tactic(auto, using(crate::proofs::Chains::first_is, crate::proofs::Depths::known))]
pub fn coming(on: &On<'_>, unit: u8, delay: u8) -> Cost
    ensures { let T = on.now.applied.now in let M = on.now.m.now in
        result ≡ cost_of T M (w.coming M unit delay) }
{
    if delay < longest(on.m, unit) {
        fresh(on, unit, delay + 1, Cost::free())
    } else {
        Cost::free()
    }
}
