//! The level of each signal in a state.

ghost use Rattle.std.specs.Prelude.{◌≡◌, ◌++◌, None, map, length, slice_index_or, IsTrue, OnOk};
ghost use Rattle.std.specs.List.{AllByRecursion};
ghost use Rattle.tta_code.specs.Cycle.{State};
ghost use Rattle.tta_sim.specs.Held.{Stands};
ghost use Rattle.tta_sim.specs.Moves.{is_possible_slot};
ghost use Rattle.tta_sim.specs.Places.{HasWritten};
ghost use Rattle.tta_places.specs.Carried.{carried};
ghost use Rattle.tta_waves.specs.Levels.{level_in, word_in};
ghost use Rattle.tta_waves.specs.Told.{is_told};

use crate::level::Level;
use crate::moment::{acts, is_started};
use crate::signal::{Signal, is_wide};
use std::alloc::AllocError;
use tta_arch::Machine;
use tta_code::Move;
use tta_places::{Row, word_of};
use tta_sim::Sim;

/// A state of a run: what it keeps, the slots of the instruction that comes, and the words that their
/// moves carry.
#[derive(Clone, Copy)]
pub struct Moment<'s, 'r, 'c> {
    pub sim: &'s Sim,
    pub row: &'r Row,
    pub units: usize,
    pub slots: &'c [Option<Move>],
    pub carried: &'r [Option<u32>],
}

/// The slot of a bus.
fn slot_of(slots: &[Option<Move>], bus: u8) -> Option<Move>
    ensures { result ≡ slice_index_or slots.now bus None }
{
    match slots.get(usize::from(bus)) {
        None => None,
        Some(slot) => *slot,
    }
}

/// The word of a signal.
fn word_in(at: &Moment<'_, '_, '_>, signal: Signal) -> Option<u32>
    requires units { at.now.units ≡ length at.now.sim.now.shown }
    requires possible { AllByRecursion (λ slot. IsTrue (is_possible_slot at.now.units slot))
        at.now.slots.now }
    requires told { IsTrue (is_told at.now.units signal) }
    ensures { (s : State) → Stands at.now.sim.now s → HasWritten at.now.row.now s.written
        → at.now.carried.now ≡ map (carried s) at.now.slots.now
        → result ≡ word_in s at.now.slots.now signal }
{
    let (row, units, slots) = (at.row, at.units, at.slots);
    match signal {
        Signal::Address => Some(at.sim.pc()),
        Signal::Halted => Some(u32::from(at.sim.halted())),
        Signal::Acts { bus } => Some(u32::from(acts(row, units, slot_of(slots, bus)))),
        Signal::Carried { bus } => word_of(at.carried, usize::from(bus)),
        Signal::Starts { unit, op } => Some(u32::from(is_started(row, units, unit, op, slots))),
        Signal::Operand { unit } => row.operand(unit),
        Signal::Shown { unit } => at.sim.port(unit),
        Signal::Register { file, index } => row.register(file, index),
        Signal::Immediate { unit, index } => row.immediate(unit, index),
        Signal::ReturnAddress => row.return_address(),
    }
}

/// What is told of a signal.
fn level_in(m: &Machine, at: &Moment<'_, '_, '_>, signal: Signal) -> Level
    requires units { at.now.units ≡ length at.now.sim.now.shown }
    requires possible { AllByRecursion (λ slot. IsTrue (is_possible_slot at.now.units slot))
        at.now.slots.now }
    requires told { IsTrue (is_told at.now.units signal) }
    ensures { (s : State) → Stands at.now.sim.now s → HasWritten at.now.row.now s.written
        → at.now.carried.now ≡ map (carried s) at.now.slots.now
        → result ≡ level_in m.now s at.now.slots.now signal }
{
    Level {
        wide: is_wide(m, signal),
        word: word_in(at, signal),
    }
}

/// Puts the levels of signals.
pub fn push_levels(
    levels: &mut Vec<Level>,
    m: &Machine,
    at: &Moment<'_, '_, '_>,
    signals: &[Signal],
) -> Result<(), AllocError>
    requires units { at.now.units ≡ length at.now.sim.now.shown }
    requires possible { AllByRecursion (λ slot. IsTrue (is_possible_slot at.now.units slot))
        at.now.slots.now }
    requires told { AllByRecursion (λ g. IsTrue (is_told at.now.units g)) signals.now }
    ensures { (s : State) → Stands at.now.sim.now s → HasWritten at.now.row.now s.written
        → at.now.carried.now ≡ map (carried s) at.now.slots.now → OnOk result (levels.new.items
        ≡ levels.old.items ++ map (level_in m.now s at.now.slots.now) signals.now) }
{
    for signal in signals {
        levels.push(level_in(m, at, *signal))?;
    }
    Ok(())
}
