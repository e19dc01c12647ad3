//! What one move may lack or meet, by the abstract state that stands before it.

ghost use Rattle.std.specs.Prelude.{◌≡◌, None, false};
ghost use Rattle.std.specs.Option.{option_map_or};
ghost use Rattle.std.specs.List.{list_any};
ghost use Rattle.tta_arch.specs.Joins.{has_bit, is_same_guard};
ghost use Rattle.tta_arch.specs.Effects.{target_of};
ghost use Rattle.tta_code.specs.Cycle.{effects_of};
ghost use Rattle.tta_check.specs.Facts.{Unset, Early, Late, gives, origin_of};
ghost use Rattle.tta_check.specs.Causes.{unset_guard, unset_source, unset_port, unset_operand};
ghost use Rattle.tta_check.specs.Causes.{wants, covers, clash, delayed, unknown};
ghost use Rattle.tta_check.specs.States.{place_of, tells, tells_word};
ghost use Rattle.tta_check.specs.Codes.{in_slot, gives_in};

use crate::effects::op_at;
use crate::location::Location;
use crate::state::{AbstractState, cell_of, port_of};
use crate::values::{ValueSet, same_word};
use crate::write::goes_into;
use tta_arch::{Dest, GuardRef, Machine, Source};
use tta_code::{Instruction, Move};

/// Whether a place may be unwritten.
fn is_unset(state: &AbstractState, location: Location) -> bool
    ensures { result ≡ tells state.now (Unset (place_of location)) }
{
    cell_of(&state.cells, location).unset
}

/// Whether a guard may be unwritten.
pub fn unset_guard(state: &AbstractState, slot: Option<Move>) -> bool
    ensures { result ≡ in_slot (tells state.now) unset_guard slot }
{
    let Some(v) = slot else {
        return false;
    };
    match v.guard {
        None => false,
        Some(g) => is_unset(
            state,
            Location::Reg {
                file: g.file,
                index: g.index,
            },
        ),
    }
}

/// Whether a register that is read may be unwritten.
pub fn unset_source(state: &AbstractState, slot: Option<Move>) -> bool
    ensures { result ≡ in_slot (tells state.now) unset_source slot }
{
    let Some(v) = slot else {
        return false;
    };
    match v.src {
        Source::Reg { file, index } => is_unset(state, Location::Reg { file, index }),
        Source::Imm { unit, index } => is_unset(state, Location::Imm { unit, index }),
        Source::Ra => is_unset(state, Location::Ra),
        Source::Shown { .. } | Source::Value(_) => false,
    }
}

/// Whether a unit may have no result that is due by so many cycles from now.
fn is_early(state: &AbstractState, unit: u8, wait: u8) -> bool
    ensures { result ≡ tells state.now (Early unit wait) }
{
    let port = port_of(&state.ports, unit);
    16 <= port.early || wait < port.early
}

/// Whether a result port that is read may show nothing.
pub fn unset_port(state: &AbstractState, slot: Option<Move>) -> bool
    ensures { result ≡ in_slot (tells state.now) unset_port slot }
{
    let Some(v) = slot else {
        return false;
    };
    match v.src {
        Source::Shown { unit } => is_early(state, unit, 0),
        _ => false,
    }
}

/// The unit whose operand port an operation takes a word from that a destination starts.
fn wants(m: &Machine, dst: Dest) -> Option<u8>
    ensures { result ≡ wants m.now (target_of dst) }
{
    let Dest::Trigger { unit, op } = dst else {
        return None;
    };
    match op_at(m, unit, op) {
        Some(o) if o.arity == 2 => Some(unit),
        _ => None,
    }
}

/// Whether two guards are one.
fn same_guard(g: GuardRef, h: GuardRef) -> bool
    ensures { result ≡ is_same_guard g h }
{
    g.file == h.file && g.index == h.index && g.inverted == h.inverted
}

/// Whether a move acts whenever another one does, by their guards.
fn covers(guard: Option<GuardRef>, other: Option<GuardRef>) -> bool
    ensures { result ≡ covers guard other }
{
    match guard {
        None => true,
        Some(g) => match other {
            None => false,
            Some(h) => same_guard(g, h),
        },
    }
}

/// Whether a slot's move brings a word to an operand port whenever a move with this guard acts.
fn gives_in(unit: u8, guard: Option<GuardRef>, slot: Option<Move>) -> bool
    ensures { result ≡ gives_in unit guard slot }
{
    match slot {
        None => false,
        Some(v) => goes_into(v.dst, Location::Operand { unit }) && covers(v.guard, guard),
    }
}

/// Whether a move brings a word to an operand port whenever a move with this guard acts.
fn is_given(moves: &[Option<Move>], unit: u8, guard: Option<GuardRef>) -> bool
    ensures { result ≡ list_any (gives_in unit guard) moves.now }
{
    moves.iter().any(|slot| gives_in(unit, guard, *slot))
}

/// Whether an operation may start without the word that it takes from the operand port.
pub fn unset_operand(
    state: &AbstractState,
    m: &Machine,
    i: &Instruction,
    slot: Option<Move>,
) -> bool
    ensures { result
        ≡ in_slot (tells state.now) (unset_operand m.now (effects_of m.now i.now)) slot }
{
    let Some(v) = slot else {
        return false;
    };
    match wants(m, v.dst) {
        None => false,
        Some(unit) => {
            !is_given(i.moves.as_slice(), unit, v.guard)
                && is_unset(state, Location::Operand { unit })
        }
    }
}

/// Whether a result of a unit may be due in so many cycles.
fn is_late(state: &AbstractState, unit: u8, wait: u8) -> bool
    ensures { result ≡ tells state.now (Late unit wait) }
{
    is_bit_set(port_of(&state.ports, unit).late, wait)
}

/// Whether a bit of a word is set.
#[tactic(auto, using(crate::proofs::Slots::no_bit))]
fn is_bit_set(word: u32, bit: u8) -> bool
    ensures { result ≡ has_bit word bit }
{
    if bit < 32 {
        (word >> bit) % 2 == 1
    } else {
        false
    }
}

/// Whether a result may be due with another.
pub fn clash(state: &AbstractState, m: &Machine, slot: Option<Move>) -> bool
    ensures { result ≡ in_slot (tells state.now) (clash m.now) slot }
{
    let Some(v) = slot else {
        return false;
    };
    let Dest::Trigger { unit, op } = v.dst else {
        return false;
    };
    match op_at(m, unit, op) {
        Some(o) if o.op.has_result() => is_late(state, unit, o.latency),
        _ => false,
    }
}

/// Whether a control move stands here while another is under way.
pub fn delayed(state: &AbstractState, pending: bool, slot: Option<Move>) -> bool
    ensures { result ≡ in_slot (tells state.now) (delayed pending) slot }
{
    match slot {
        None => false,
        Some(v) => match v.dst {
            Dest::Jump | Dest::Call | Dest::Halt => pending,
            _ => false,
        },
    }
}

/// Whether a word is told.
fn tells_word(values: ValueSet, word: Option<u32>) -> bool
    ensures { result ≡ tells_word values word }
{
    match values {
        ValueSet::Nothing => false,
        ValueSet::One(a) => same_word(word, a),
        ValueSet::Two(a, b) => same_word(word, a) || same_word(word, b),
    }
}

/// Whether a jump or call may go to a word that is not known.
pub fn unknown(state: &AbstractState, slot: Option<Move>) -> bool
    ensures { result ≡ in_slot (tells state.now) unknown slot }
{
    let Some(v) = slot else {
        return false;
    };
    match v.dst {
        Dest::Jump | Dest::Call => may_be_unknown(state, v.src),
        _ => false,
    }
}

/// Whether a source may have a word that is not known.
fn may_be_unknown(state: &AbstractState, src: Source) -> bool
    ensures { result ≡ option_map_or (tells state.now) (gives (origin_of src) None) false }
{
    match src {
        Source::Reg { file, index } => {
            tells_word(
                cell_of(&state.cells, Location::Reg { file, index }).values,
                None,
            )
        }
        Source::Imm { unit, index } => {
            tells_word(
                cell_of(&state.cells, Location::Imm { unit, index }).values,
                None,
            )
        }
        Source::Ra => tells_word(cell_of(&state.cells, Location::Ra).values, None),
        Source::Shown { .. } => true,
        Source::Value(_) => false,
    }
}
