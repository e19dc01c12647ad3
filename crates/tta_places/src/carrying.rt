//! What the moves of the next instruction carry.

ghost use Rattle.std.specs.Prelude.{◌≡◌, ◌++◌, None, map, length, slice_get, slice_index_or};
ghost use Rattle.std.specs.Prelude.{IsTrue, OnOk, if◌then◌else◌};
ghost use Rattle.std.specs.List.{AllByRecursion};
ghost use Rattle.std.specs.Option.{option_copied};
ghost use Rattle.tta_arch.specs.Effects.{is_active};
ghost use Rattle.tta_code.specs.Cycle.{State, read_source, effect_of};
ghost use Rattle.tta_sim.specs.Held.{Stands, is_halted};
ghost use Rattle.tta_sim.specs.Moves.{is_askable, is_possible_slot, is_readable};
ghost use Rattle.tta_sim.specs.Places.{HasWritten};
ghost use Rattle.tta_places.specs.Carried.{carried, coming, slots_of};

use crate::row::Row;
use std::alloc::AllocError;
use tta_arch::Source;
use tta_code::{Code, Instruction, Move};
use tta_sim::Sim;

/// The instruction that a run comes to, none where it has halted.
pub fn coming<'c>(sim: &Sim, code: &'c Code) -> Option<&'c Instruction>
    ensures is { option_copied result
        ≡ (if is_halted sim.now.outcome then None else slice_get code.now.words sim.now.pc) }
    ensures comes { (s : State) → Stands sim.now s
        → option_copied result ≡ coming code.now.words s }
{
    if sim.halted() {
        return None;
    }
    code.words.as_slice().get(sim.pc() as usize)
}

/// The slots of the instruction that comes.
pub fn slots_of(coming: Option<&Instruction>) -> &[Option<Move>]
    ensures { result.now ≡ slots_of (option_copied coming.entry) }
{
    match coming {
        None => &[],
        Some(i) => i.moves.as_slice(),
    }
}

/// The word of a source.
fn read_source(row: &Row, sim: &Sim, source: Source) -> Option<u32>
    requires { IsTrue (is_readable (length sim.now.shown) source) }
    ensures { (s : State) → Stands sim.now s → HasWritten row.now s.written
        → result ≡ read_source s source }
{
    match source {
        Source::Reg { file, index } => row.register(file, index),
        Source::Imm { unit, index } => row.immediate(unit, index),
        Source::Shown { unit } => sim.port(unit),
        Source::Ra => row.return_address(),
        Source::Value(word) => Some(word),
    }
}

/// Whether a move acts.
pub fn is_active(row: &Row, v: Move) -> bool
    requires { IsTrue (is_askable v.guard) }
    ensures { (s : State) → HasWritten row.now s.written
        → result ≡ is_active (read_source s) (effect_of v) }
{
    let Some(on) = v.guard else {
        return true;
    };
    match row.register(on.file, on.index) {
        None => false,
        Some(word) => on.inverted == (word == 0),
    }
}

/// The word that the move of a slot carries, if it acts.
fn carried(row: &Row, sim: &Sim, slot: Option<Move>) -> Option<u32>
    requires { IsTrue (is_possible_slot (length sim.now.shown) slot) }
    ensures { (s : State) → Stands sim.now s → HasWritten row.now s.written
        → result ≡ carried s slot }
{
    let v = slot?;
    if is_active(row, v) {
        read_source(row, sim, v.src)
    } else {
        None
    }
}

/// Puts the words that the moves of slots carry.
pub fn push_carried(
    words: &mut Vec<Option<u32>>,
    row: &Row,
    sim: &Sim,
    slots: &[Option<Move>],
) -> Result<(), AllocError>
    requires { AllByRecursion (λ slot. IsTrue (is_possible_slot (length sim.now.shown) slot))
        slots.now }
    ensures { (s : State) → Stands sim.now s → HasWritten row.now s.written
        → OnOk result (words.new.items ≡ words.old.items ++ map (carried s) slots.now) }
{
    for slot in slots {
        words.push(carried(row, sim, *slot))?;
    }
    Ok(())
}

/// The word of a bus.
pub fn word_of(words: &[Option<u32>], bus: usize) -> Option<u32>
    ensures { result ≡ slice_index_or words.now bus None }
{
    match words.get(bus) {
        None => None,
        Some(word) => *word,
    }
}
