//! Which code an abstract state gives at an instruction.

ghost use Rattle.std.specs.Prelude.{◌≡◌};
ghost use Rattle.tta_code.specs.Cycle.{effects_of};
ghost use Rattle.tta_check.specs.Causes.{unset_guard, unset_source, unset_port, unset_operand};
ghost use Rattle.tta_check.specs.Causes.{clash, delayed, unknown};
ghost use Rattle.tta_check.specs.States.{tells};
ghost use Rattle.tta_check.specs.Codes.{in_slots, code_in, last_code_in};

use crate::fault_numbers::{
    CLASHING_RESULTS, CONTROL_IN_DELAY, MISSING_OPERAND, UNKNOWN_TARGET, UNSET_PORT, UNSET_REGISTER,
};
use crate::slot_causes::{
    clash, delayed, unknown, unset_guard, unset_operand, unset_port, unset_source,
};
use crate::state::AbstractState;
use tta_arch::Machine;
use tta_code::{Instruction, Move};

/// Whether a guard of some moves may be unwritten.
fn any_guards(state: &AbstractState, moves: &[Option<Move>]) -> bool
    ensures { result ≡ in_slots (tells state.now) unset_guard moves.now }
{
    moves.iter().any(|slot| unset_guard(state, *slot))
}

/// Whether a register that some moves read may be unwritten.
fn any_sources(state: &AbstractState, moves: &[Option<Move>]) -> bool
    ensures { result ≡ in_slots (tells state.now) unset_source moves.now }
{
    moves.iter().any(|slot| unset_source(state, *slot))
}

/// Whether a result port that some moves read may show nothing.
fn any_ports(state: &AbstractState, moves: &[Option<Move>]) -> bool
    ensures { result ≡ in_slots (tells state.now) unset_port moves.now }
{
    moves.iter().any(|slot| unset_port(state, *slot))
}

/// Whether an operation may start without the word that it takes from the operand port.
fn any_operands(state: &AbstractState, m: &Machine, i: &Instruction) -> bool
    ensures { result
        ≡ in_slots (tells state.now) (unset_operand m.now (effects_of m.now i.now)) i.now.moves }
{
    i.moves
        .as_slice()
        .iter()
        .any(|slot| unset_operand(state, m, i, *slot))
}

/// Whether a result that some moves start may be due with another.
fn any_clashes(state: &AbstractState, m: &Machine, moves: &[Option<Move>]) -> bool
    ensures { result ≡ in_slots (tells state.now) (clash m.now) moves.now }
{
    moves.iter().any(|slot| clash(state, m, *slot))
}

/// Whether some moves have a control move while another is under way.
fn any_delays(state: &AbstractState, pending: bool, moves: &[Option<Move>]) -> bool
    ensures { result ≡ in_slots (tells state.now) (delayed pending) moves.now }
{
    moves.iter().any(|slot| delayed(state, pending, *slot))
}

/// Whether a jump or call of some moves may go to a word that is not known.
fn any_unknowns(state: &AbstractState, moves: &[Option<Move>]) -> bool
    ensures { result ≡ in_slots (tells state.now) unknown moves.now }
{
    moves.iter().any(|slot| unknown(state, *slot))
}

/// Which code an abstract state gives at an instruction, if any: that of the first cause that may
/// be.
#[tactic(auto, unfolding(crate::specs::Codes::code_in))]
pub fn code_at(state: &AbstractState, m: &Machine, i: &Instruction, pending: bool) -> Option<u8>
    ensures { result ≡ code_in (tells state.now) m.now pending i.now }
{
    let moves = i.moves.as_slice();
    if any_guards(state, moves) {
        Some(UNSET_REGISTER)
    } else if any_sources(state, moves) {
        Some(UNSET_REGISTER)
    } else if any_ports(state, moves) {
        Some(UNSET_PORT)
    } else if any_operands(state, m, i) {
        Some(MISSING_OPERAND)
    } else {
        code_after(state, m, i, pending)
    }
}

/// The same of the causes that come last.
fn code_after(state: &AbstractState, m: &Machine, i: &Instruction, pending: bool) -> Option<u8>
    ensures { result ≡ last_code_in (tells state.now) m.now pending i.now }
{
    let moves = i.moves.as_slice();
    if any_clashes(state, m, moves) {
        Some(CLASHING_RESULTS)
    } else if any_delays(state, pending, moves) {
        Some(CONTROL_IN_DELAY)
    } else if any_unknowns(state, moves) {
        Some(UNKNOWN_TARGET)
    } else {
        None
    }
}
