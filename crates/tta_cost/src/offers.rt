//! What starts where units offer an operation.

ghost use Rattle.std.specs.Prelude.{◌≡◌, map};
ghost use Rattle.tta_circuit.specs.Circuit as c;
ghost use Rattle.tta_cost.specs.Chains.{bits_of};
ghost use Rattle.tta_cost.specs.Depths.{cost_of};
ghost use Rattle.tta_cost.specs.Offers.{word_of};
ghost use Rattle.tta_hardware.specs.Chains.{any_of, first_of};
ghost use Rattle.tta_hardware.specs.Signals as s;
ghost use Rattle.tta_hardware.specs.Wires as w;
ghost use Rattle.tta_offers.specs.Offers.{places_of};

use crate::on::On;
use crate::starts::{operand_line, start_line, trigger_line};
use tta_measure::Cost;
use tta_offers::OpAt;

/// A word that goes to a unit.
#[derive(Clone, Copy)]
pub enum Given {
    /// The word in its operand port once this cycle's moves are made.
    Operand,
    /// The word that starts an operation.
    Trigger,
}

/// Whether one of some operations starts.
pub fn some_start(on: &On<'_>, ops: &[OpAt]) -> Cost
    ensures { let T = on.now.applied.now in let M = on.now.m.now in
        result ≡ cost_of T M
        (any_of (map (λ o. c.Signal (s.Starts o.0 o.1)) (places_of ops.now))) }
{
    match ops {
        [] => Cost::free(),
        [o, rest @ ..] => start_line(on, o.unit, o.op).gate(some_start(on, rest)),
    }
}

/// A word that goes to a unit.
fn word_of(on: &On<'_>, what: Given, unit: u8) -> Cost
    ensures cost { let T = on.now.applied.now in let M = on.now.m.now in
        result ≡ cost_of T M (c.Signal (word_of what unit)) }
    ensures bits { bits_of on.now.m.now (c.Signal (word_of what unit)) ≡ 32 }
{
    match what {
        Given::Operand => operand_line(on, unit),
        Given::Trigger => trigger_line(on, unit),
    }
}

/// A word of the unit of which one of some operations starts, and 0 where none does.
pub fn word_where(on: &On<'_>, what: Given, ops: &[OpAt]) -> Cost
    ensures { let T = on.now.applied.now in let M = on.now.m.now in
        result ≡ cost_of T M (first_of (map (λ o. (
          c.Signal (s.Starts o.0 o.1),
          c.Signal (word_of what o.0),
        )) (places_of ops.now)) w.nothing) }
{
    match ops {
        [] => Cost::free(),
        [o, rest @ ..] => {
            let more = word_where(on, what, rest);
            let starts = start_line(on, o.unit, o.op);
            Cost::choice(32, starts, word_of(on, what, o.unit), more)
        }
    }
}
