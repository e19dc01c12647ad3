//! The states of a run, cycle by cycle.

ghost use Rattle.std.specs.Prelude.{◌≡◌, ◌+◌, ◌<◌, ◌≤◌, ◌^◌, ◌++◌, map};
ghost use Rattle.std.specs.Prelude.{IfOk, None, OnOk, if◌then◌else◌, is_some};
ghost use Rattle.std.specs.Option.{option_copied};
ghost use Rattle.tta_ops.specs.Set.{stated};
ghost use Rattle.tta_list.specs.Input.{IsFed};
ghost use Rattle.tta_code.specs.Cycle.{State, next as next_state};
ghost use Rattle.tta_sim.specs.Held.{Stands, IsRunOf};
ghost use Rattle.tta_sim.specs.Places.{HasWritten};
ghost use Rattle.tta_waves.specs.Dump.{states_text};
ghost use Rattle.tta_places.specs.Carried.{carried, coming, slots_of};
ghost use Rattle.tta_waves.specs.Levels.{levels_in};
ghost use Rattle.tta_waves.specs.Signals.{signals_of};
ghost use Rattle.tta_profile.specs.Feed.{went_on};
ghost use Rattle.tta_waves.specs.Steps.{Goes, IsTold};

use crate::changes::{push_last, push_state};
use crate::level::Level;
use crate::levels::{Moment, push_levels};
use crate::signal::Signal;
use std::alloc::{AllocError, Global};
use tta_arch::Machine;
use tta_code::Instruction;
use tta_places::{Row, coming, push_carried, slots_of, write_made};
use tta_profile::{Basis, went_on};
use tta_run::{first_of, left_of};
use tta_sim::{CycleStep, Sim};

/// A dump that is written, and what it needs to know of its run beside the run itself: the signals that
/// are told, the words that places keep, what was told of each signal last, and the words that the moves
/// of the next instruction carry.
#[derive(Drop)]
pub struct Dump {
    pub out: Vec<u8>,
    pub signals: Vec<Signal>,
    pub row: Row,
    pub before: Vec<Level>,
    pub carried: Vec<Option<u32>>,
}

/// Notes the words that the moves of the next instruction carry, and gives the levels of all signals.
fn levels_of(
    alloc: Global,
    dump: &mut Dump,
    basis: &Basis<'_>,
    sim: &Sim,
) -> Result<Vec<Level>, AllocError>
    requires loaded { IsRunOf basis.now.m.now basis.now.code.now sim.now }
    requires signals { dump.old.signals.items ≡ signals_of basis.now.m.now }
    ensures out { dump.new.out ≡ dump.old.out }
    ensures signals { dump.new.signals ≡ dump.old.signals }
    ensures row { dump.new.row ≡ dump.old.row }
    ensures before { dump.new.before ≡ dump.old.before }
    ensures carried { (s : State) → Stands sim.now s → HasWritten dump.old.row s.written
        → OnOk result (dump.new.carried.items
        ≡ map (carried s) (slots_of (coming basis.now.code.now.words s))) }
    ensures levels { (s : State) → Stands sim.now s → HasWritten dump.old.row s.written
        → IfOk result (λ v. v.items ≡ levels_in basis.now.m.now basis.now.code.now.words s) }
{
    let mut levels = Vec::new(alloc);
    let m = basis.m;
    let units = m.units.len();
    let slots = slots_of(coming(sim, basis.code));
    dump.carried.clear();
    push_carried(&mut dump.carried, &dump.row, sim, slots)?;
    let at = Moment {
        sim,
        row: &dump.row,
        units,
        slots,
        carried: dump.carried.as_slice(),
    };
    push_levels(&mut levels, m, &at, dump.signals.as_slice())?;
    Ok(levels)
}

/// Puts what changed of the levels that were told last.
fn push_moment(
    alloc: Global,
    dump: &mut Dump,
    basis: &Basis<'_>,
    sim: &Sim,
) -> Result<(), AllocError>
    requires loaded { IsRunOf basis.now.m.now basis.now.code.now sim.now }
    requires signals { dump.old.signals.items ≡ signals_of basis.now.m.now }
    ensures signals { dump.new.signals ≡ dump.old.signals }
    ensures row { dump.new.row ≡ dump.old.row }
    ensures carried { (s : State) → Stands sim.now s → HasWritten dump.old.row s.written
        → OnOk result (dump.new.carried.items
        ≡ map (carried s) (slots_of (coming basis.now.code.now.words s))) }
    ensures text { let levels = levels_in basis.now.m.now basis.now.code.now.words in
        (s : State) → Stands sim.now s → HasWritten dump.old.row s.written → OnOk result
        (IsTold (levels s) s.cycle dump.old.before.items dump.old.out.items
        dump.new.before.items dump.new.out.items) }
{
    let levels = levels_of(alloc, dump, basis, sim)?;
    push_state(
        &mut dump.out,
        dump.before.as_slice(),
        levels.as_slice(),
        sim.cycles(),
    )?;
    dump.before = levels;
    Ok(())
}

/// The instruction that a cycle carried out, none where it did not.
fn made_of(coming: Option<&Instruction>, step: CycleStep) -> Option<&Instruction>
    ensures { option_copied result
        ≡ (if is_some (went_on step) then option_copied coming.entry else None) }
{
    match step {
        CycleStep::Ran { .. } => coming,
        CycleStep::Halted => None,
        CycleStep::Waiting => None,
        CycleStep::Fault(_) => None,
    }
}

/// Carries out a cycle, and writes what it writes.
fn cycle_once(dump: &mut Dump, sim: &mut Sim, basis: &Basis<'_>, next: Option<u32>) -> CycleStep
    requires loaded { IsRunOf basis.now.m.now basis.now.code.now sim.old }
    requires few { sim.old.cycle < 2 ^ 62 }
    ensures loaded { IsRunOf basis.now.m.now basis.now.code.now sim.new }
    ensures counted { sim.new.cycle ≤ sim.old.cycle + 1 }
    ensures out { dump.new.out ≡ dump.old.out }
    ensures signals { dump.new.signals ≡ dump.old.signals }
    ensures before { dump.new.before ≡ dump.old.before }
    ensures goes { let on = basis.now in
        let step = next_state (stated unit_meaning on.units.now) on.m.now on.code.now in
        (s : State) → Stands sim.old s → IsFed s.rest next → HasWritten dump.old.row s.written
        → dump.old.carried.items ≡ map (carried s) (slots_of (coming on.code.now.words s))
        → Goes step (λ t. Stands sim.new t × HasWritten dump.new.row t.written) s result }
{
    let m = basis.m;
    m.rules();
    let pc = sim.pc();
    let coming = coming(&*sim, basis.code);
    let step = sim.cycle(m, basis.code, basis.units, next);
    let made = made_of(coming, step);
    write_made(&mut dump.row, m, pc, made, dump.carried.as_slice());
    step
}

/// Puts a state of a run, and those after each of at most so many cycles.
pub fn push_states(
    alloc: Global,
    dump: &mut Dump,
    sim: &mut Sim,
    basis: &Basis<'_>,
    input: &[u32],
    bound: u64,
) -> Result<(), AllocError>
    requires loaded { IsRunOf basis.now.m.now basis.now.code.now sim.old }
    requires signals { dump.old.signals.items ≡ signals_of basis.now.m.now }
    requires few { sim.old.cycle + bound < 2 ^ 62 }
    ensures { let on = basis.now in
        let step = next_state (stated unit_meaning on.units.now) on.m.now on.code.now in
        let levels = levels_in on.m.now on.code.now.words in
        (s : State) → Stands sim.old s → HasWritten dump.old.row s.written → s.rest ≡ input.now
        → OnOk result (dump.new.out.items ≡ dump.old.out.items
        ++ states_text step levels bound dump.old.before.items s) }
{
    let mut left = bound;
    let mut rest = input;
    'states: while left > 0 {
        push_moment(alloc, dump, basis, &*sim)?;
        let cycle = sim.cycles();
        let step = cycle_once(dump, sim, basis, first_of(rest));
        let Some(took) = went_on(step) else {
            push_last(&mut dump.out, step, cycle)?;
            return Ok(());
        };
        rest = left_of(rest, took);
        left -= 1;
    }
    push_moment(alloc, dump, basis, &*sim)?;
    push_last(
        &mut dump.out,
        CycleStep::Ran {
            put: None,
            took: false,
        },
        sim.cycles(),
    )?;
    Ok(())
}
