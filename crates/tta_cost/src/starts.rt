//! Which operations start, and with which words.

ghost use Rattle.std.specs.Prelude.{◌≡◌, ◌+◌, ◌≤◌, length};
ghost use Rattle.std.specs.List.{flat_map, enumerate_from};
ghost use Rattle.tta_arch.specs.declared.ends.Dest.TheVariants as dest;
ghost use Rattle.tta_circuit.specs.Circuit as c;
ghost use Rattle.tta_cost.specs.Chains.{first_cost};
ghost use Rattle.tta_cost.specs.Depths.{cost_of};
ghost use Rattle.tta_hardware.specs.Signals as s;
ghost use Rattle.tta_hardware.specs.Wires as w;

use crate::on::On;
use crate::reach::{arrivals, reached};
use tta_arch::{Dest, UnitOp};
use tta_measure::Cost;
use tta_offers::ops_at;

/// Whether an operation of a unit starts.
pub fn start(on: &On<'_>, unit: u8, op: u8) -> Cost
    ensures { let T = on.now.applied.now in let M = on.now.m.now in
        result ≡ cost_of T M (w.made_of M (s.Starts unit op)) }
{
    reached(on, Dest::Trigger { unit, op })
}

/// Whether an operation of a unit starts, where it is read.
#[tactic(auto, using(crate::proofs::Depths::line_is))]
pub fn start_line(on: &On<'_>, unit: u8, op: u8) -> Cost
    ensures { let T = on.now.applied.now in let M = on.now.m.now in
        result ≡ cost_of T M (c.Signal (s.Starts unit op)) }
{
    start(on, unit, op).read()
}

/// What starts some operations of a unit, these being those from one on, before another word.
#[tactic(auto, using(crate::proofs::Chains::first_more))]
fn triggers_from(on: &On<'_>, unit: u8, op: u8, ops: &[UnitOp], other: Cost) -> Cost
    requires few { op + length ops.now ≤ 255 }
    ensures { let T = on.now.applied.now in let M = on.now.m.now in
        result ≡ first_cost T M (flat_map (λ o. w.arrivals M (dest.Trigger unit o.0))
        (enumerate_from op ops.now)) other }
{
    match ops {
        [] => other,
        [_, rest @ ..] => {
            let more = triggers_from(on, unit, op + 1, rest, other);
            arrivals(on, Dest::Trigger { unit, op }, false, more)
        }
    }
}

/// The word that starts an operation of a unit.
#[tactic(auto, using(crate::proofs::Chains::first_is))]
pub fn trigger(on: &On<'_>, unit: u8) -> Cost
    ensures { let T = on.now.applied.now in let M = on.now.m.now in
        result ≡ cost_of T M (w.trigger_word M unit) }
{
    triggers_from(on, unit, 0, ops_at(on.m, unit), Cost::free())
}

/// The word that starts an operation of a unit, where it is read.
#[tactic(auto, using(crate::proofs::Depths::line_is))]
pub fn trigger_line(on: &On<'_>, unit: u8) -> Cost
    ensures { let T = on.now.applied.now in let M = on.now.m.now in
        result ≡ cost_of T M (c.Signal (s.Trigger unit)) }
{
    trigger(on, unit).read()
}

/// The word in a unit's operand port once this cycle's moves are made.
#[tactic(auto, using(crate::proofs::Chains::first_is, crate::proofs::Depths::known))]
pub fn operand(on: &On<'_>, unit: u8) -> Cost
    ensures { let T = on.now.applied.now in let M = on.now.m.now in
        result ≡ cost_of T M (w.operand_now M unit) }
{
    arrivals(on, Dest::Operand { unit }, false, Cost::free())
}

/// The word in a unit's operand port once this cycle's moves are made, where it is read.
#[tactic(auto, using(crate::proofs::Depths::line_is))]
pub fn operand_line(on: &On<'_>, unit: u8) -> Cost
    ensures { let T = on.now.applied.now in let M = on.now.m.now in
        result ≡ cost_of T M (c.Signal (s.Operand unit)) }
{
    operand(on, unit).read()
}
