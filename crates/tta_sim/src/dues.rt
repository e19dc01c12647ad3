//! The results that operations show.

ghost use Rattle.std.specs.Prelude.{◌≡◌, ◌<◌, ◌≤◌, ◌++◌, not, true, false, length};
ghost use Rattle.std.specs.Prelude.{option_map, option_to_list, IsTrue};
ghost use Rattle.std.specs.List.{filter_map, list_any, AllByRecursion};
ghost use Rattle.tta_ops.specs.Set.{stated};
ghost use Rattle.tta_sim.specs.Results.{shown_by};
ghost use Rattle.tta_sim.specs.Lines.{is_start_there, operand_in, start_brought, cannot_start};
ghost use Rattle.tta_sim.specs.Dues.{due_with, shows, shown_from};

use crate::decoded::DecodedStart;
use crate::lines::{Read, Write, read_move, start_of};
use crate::results::Results;
use crate::short::Short;
use crate::spaces::load;
use crate::starts::{Start, stops};
use crate::store::Store;
use tta_arch::Op;
use tta_ops::UnitSet;

/// A result that an operation shows so many cycles after its start.
#[derive(Clone, Copy)]
pub struct Due {
    pub unit: u8,
    /// 1 to 16 cycles.
    pub latency: u8,
    pub value: u32,
}

/// The word that an operation shows, if it shows one, where `next` is the next word of the input.
#[inline(always)]
pub fn result_of(
    units: &UnitSet,
    memory: &[u32],
    frame: &[u32],
    next: u32,
    start: &Start,
) -> Option<u32>
    ensures { let U = stated unit_meaning units.now in
        option_map (due_with start.now) result ≡ shows U memory.now frame.now next start.now }
{
    match start.does.op {
        Op::Ldw => Some(load(memory, start.word)),
        Op::Ldf => Some(load(frame, start.word)),
        Op::Take => Some(next),
        Op::Set(op) => Some(units.apply(op, start.operand.unwrap_or(0), start.word)),
        Op::Stw | Op::Stf | Op::Out => None,
    }
}

/// Notes the result that an operation shows, if it shows one.
#[inline(always)]
fn note_result(dues: &mut Short<Due>, units: &UnitSet, store: &Store, next: u32, start: &Start)
    requires { length dues.old < 32 }
    ensures { let U = stated unit_meaning units.now in
        dues.new ≡ dues.old ++ option_to_list (shown_from U next store.now start.now) }
{
    let memory = store.memory.as_slice();
    let frame = store.frame.as_slice();
    if let Some(value) = result_of(units, memory, frame, next, start) {
        dues.push(Due {
            unit: start.unit,
            latency: start.does.latency,
            value,
        });
    }
}

/// Collects the results that operations show.
#[inline(always)]
pub fn note_results(
    dues: &mut Short<Due>,
    units: &UnitSet,
    store: &Store,
    next: u32,
    starts: &[Start],
)
    requires { length starts.now ≤ 16 }
    ensures { let U = stated unit_meaning units.now in
        dues.new ≡ filter_map (shown_from U next store.now) starts.now }
{
    dues.clear();
    for start in starts {
        note_result(dues, units, store, next, start);
    }
}

/// Notes the result of the operation that a move starts, if it acts and shows one, and answers
/// whether the operation cannot start. The operation takes no word of the input.
#[inline(always)]
fn note_due(
    dues: &mut Short<Due>,
    writes: &[Write],
    store: &Store,
    results: &Results<'_>,
    units: &UnitSet,
    s: &DecodedStart,
) -> bool
    requires room { length dues.old < 32 }
    requires there { IsTrue (is_start_there results.now.units s.now) }
    ensures dues { let U = stated unit_meaning units.now in
        let operand = operand_in store.now.places writes.now in
        let brought = start_brought store.now.places (shown_by results.now) operand s.now in
        result ≡ false → dues.new
        ≡ dues.old ++ filter_map (shown_from U 0 store.now) (option_to_list brought) }
    ensures stopped { let operand = operand_in store.now.places writes.now in
        result ≡ cannot_start store.now.places results.now operand s.now }
{
    match read_move(&store.places, results, &s.reading) {
        Read::Nothing => false,
        Read::Word(word) => {
            let start = start_of(writes, &store.places, s, word);
            if stops(results, &start) {
                return true;
            }
            note_result(dues, units, store, 0, &start);
            false
        }
        Read::Unset(_) => true,
    }
}

/// Collects the results of the operations that the moves start, which take no word of the input,
/// and answers whether all of these can start.
#[inline(always)]
pub fn note_dues(
    dues: &mut Short<Due>,
    writes: &[Write],
    store: &Store,
    results: &Results<'_>,
    units: &UnitSet,
    moves: &[DecodedStart],
) -> bool
    requires few { length moves.now ≤ 16 }
    requires there { AllByRecursion
        (λ s. IsTrue (is_start_there results.now.units s)) moves.now }
    ensures can { let operand = operand_in store.now.places writes.now in
        result ≡ not (list_any (cannot_start store.now.places results.now operand) moves.now) }
    ensures dues { let U = stated unit_meaning units.now in
        let operand = operand_in store.now.places writes.now in
        let brought = start_brought store.now.places (shown_by results.now) operand in
        result ≡ true → dues.new
        ≡ filter_map (shown_from U 0 store.now) (filter_map brought moves.now) }
{
    dues.clear();
    for s in moves {
        if note_due(dues, writes, store, results, units, s) {
            return false;
        }
    }
    true
}
