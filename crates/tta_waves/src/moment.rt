//! Which moves act in a state.

ghost use Rattle.std.specs.Prelude.{◌≡◌, IsTrue};
ghost use Rattle.std.specs.List.{AllByRecursion, list_any};
ghost use Rattle.tta_code.specs.Cycle.{State};
ghost use Rattle.tta_sim.specs.Moves.{is_possible_slot};
ghost use Rattle.tta_sim.specs.Places.{HasWritten};
ghost use Rattle.tta_waves.specs.Levels.{acts, is_start, starts};

use tta_arch::Dest;
use tta_code::Move;
use tta_places::{Row, is_active};

/// Whether a slot has a move that acts.
pub fn acts(row: &Row, units: usize, slot: Option<Move>) -> bool
    requires { IsTrue (is_possible_slot units slot) }
    ensures { (s : State) → HasWritten row.now s.written → result ≡ acts s slot }
{
    match slot {
        None => false,
        Some(v) => is_active(row, v),
    }
}

/// Whether a destination starts an operation of a unit.
fn is_start(unit: u8, op: u8, dst: Dest) -> bool
    ensures { result ≡ is_start unit op dst }
{
    match dst {
        Dest::Trigger {
            unit: other,
            op: which,
        } => other == unit && which == op,
        Dest::Reg { .. } | Dest::Operand { .. } | Dest::Jump | Dest::Call | Dest::Halt => false,
    }
}

/// Whether a slot has a move that acts and starts an operation of a unit.
fn starts(row: &Row, units: usize, unit: u8, op: u8, slot: Option<Move>) -> bool
    requires { IsTrue (is_possible_slot units slot) }
    ensures { (s : State) → HasWritten row.now s.written → result ≡ starts s unit op slot }
{
    match slot {
        None => false,
        Some(v) => is_start(unit, op, v.dst) && is_active(row, v),
    }
}

/// Whether one of some slots has one.
pub fn is_started(row: &Row, units: usize, unit: u8, op: u8, slots: &[Option<Move>]) -> bool
    requires { AllByRecursion (λ slot. IsTrue (is_possible_slot units slot)) slots.now }
    ensures { (s : State) → HasWritten row.now s.written
        → result ≡ list_any (starts s unit op) slots.now }
{
    for slot in slots {
        if starts(row, units, unit, op, *slot) {
            return true;
        }
    }
    false
}
