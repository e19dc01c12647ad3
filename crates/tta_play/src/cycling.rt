//! The states of a run, cycle by cycle.

ghost use Rattle.std.specs.Prelude.{◌≡◌, ◌+◌, ◌<◌, ◌≤◌, ◌^◌, ◌++◌, true, is_some, IfOk, OnOk};
ghost use Rattle.tta_ops.specs.Set.{stated};
ghost use Rattle.tta_list.specs.Input.{IsFed};
ghost use Rattle.tta_code.specs.Cycle.{State, next as next_state};
ghost use Rattle.tta_sim.specs.Held.{IsRunOf};
ghost use Rattle.tta_pages.specs.Room.{within};
ghost use Rattle.tta_play.specs.Controls.{Follows};
ghost use Rattle.tta_play.specs.States.{out_text, state_text, states_text, whole_text};
ghost use Rattle.tta_play.specs.Steps.{Goes, PutsWithCycle, step_text};
ghost use Rattle.tta_sim.specs.declared.cycle_step.CycleStep.TheVariants.{Fault};

use crate::control::{UnderWay, cycle_followed};
use crate::memory::{Spaces, push_changed, remember};
use crate::state::push_state;
use crate::words::push_number;
use std::alloc::AllocError;
use tta_pages::{fit, keep_within};
use tta_profile::{Basis, went_on};
use tta_run::{first_of, left_of};
use tta_sim::{CycleStep, Sim};

/// Puts a word that is output.
#[tactic(auto, unfolding(crate::specs::States::out_text))]
fn push_out(out: &mut Vec<u8>, word: u32) -> Result<(), AllocError>
    ensures { OnOk result (out.new.items ≡ out.old.items ++ out_text word) }
{
    out.extend_from_slice(b"out ")?;
    push_number(out, u64::from(word))?;
    out.extend_from_slice(b"\n")
}

/// Puts the number of a fault.
fn push_fault(out: &mut Vec<u8>, number: u8) -> Result<(), AllocError>
    ensures { OnOk result (out.new.items ≡ out.old.items ++ step_text (Fault number)) }
{
    out.extend_from_slice(b"fault ")?;
    push_number(out, u64::from(number))?;
    out.extend_from_slice(b"\n")
}

/// Puts what became of a cycle: the word that it output, or why the run is over.
fn push_step(out: &mut Vec<u8>, step: CycleStep) -> Result<(), AllocError>
    ensures { OnOk result (out.new.items ≡ out.old.items ++ step_text step) }
{
    match step {
        CycleStep::Ran { put: None, .. } => Ok(()),
        CycleStep::Ran {
            put: Some(word),
            ..
        } => push_out(out, word),
        CycleStep::Halted => out.extend_from_slice(b"halted\n"),
        CycleStep::Waiting => out.extend_from_slice(b"waiting\n"),
        CycleStep::Fault(number) => push_fault(out, number),
    }
}

/// Carries out a cycle.
fn cycle_once(
    sim: &mut Sim,
    under_way: &mut Option<UnderWay>,
    basis: &Basis<'_>,
    next: Option<u32>,
) -> CycleStep
    requires loaded { IsRunOf basis.now.m.now basis.now.code.now sim.old }
    requires few { sim.old.cycle < 2 ^ 62 }
    ensures loaded { IsRunOf basis.now.m.now basis.now.code.now sim.new }
    ensures counted { sim.new.cycle ≤ sim.old.cycle + 1 }
    ensures goes { let on = basis.now in
        let step = next_state (stated unit_meaning on.units.now) on.m.now on.code.now in
        (s : State) → Follows sim.old under_way.old s → IsFed s.rest next
        → Goes step (Follows sim.new under_way.new) s result }
{
    cycle_followed(sim, under_way, basis, next)
}

/// What is followed beside a run: the words of its spaces as they were before a cycle, and the control
/// move that is under way.
#[derive(Drop)]
pub struct Beside {
    pub spaces: Spaces,
    pub under_way: Option<UnderWay>,
}

/// Puts a state of a run and what the cycle after it does, which is carried out, or why none is. It answers
/// whether one was, and if so whether that took a word of the input.
fn push_state_and_cycle(
    out: &mut Vec<u8>,
    beside: &mut Beside,
    sim: &mut Sim,
    basis: &Basis<'_>,
    next: Option<u32>,
) -> Result<Option<bool>, AllocError>
    requires loaded { IsRunOf basis.now.m.now basis.now.code.now sim.old }
    requires few { sim.old.cycle < 2 ^ 62 }
    requires memory { beside.old.spaces.memory.items ≡ sim.old.memory }
    requires frame { beside.old.spaces.frame.items ≡ sim.old.frame }
    ensures loaded { IsRunOf basis.now.m.now basis.now.code.now sim.new }
    ensures counted { sim.new.cycle ≤ sim.old.cycle + 1 }
    ensures memory { IfOk result (λ went. is_some went ≡ true
        → beside.new.spaces.memory.items ≡ sim.new.memory) }
    ensures frame { IfOk result (λ went. is_some went ≡ true
        → beside.new.spaces.frame.items ≡ sim.new.frame) }
    ensures puts { let on = basis.now in let U = stated unit_meaning on.units.now in
        let step = next_state U on.m.now on.code.now in
        let told = whole_text U on.m.now on.code.now.words in
        (s : State) → Follows sim.old beside.old.under_way s → IsFed s.rest next → IfOk result
        (PutsWithCycle step (Follows sim.new beside.new.under_way) told s out.old.items
        out.new.items) }
{
    push_state(out, basis, &*sim, beside.under_way, next)?;
    let step = cycle_once(sim, &mut beside.under_way, basis, next);
    push_step(out, step)?;
    let went = went_on(step);
    if went.is_some() {
        push_changed(out, &mut beside.spaces, &*sim)?;
    }
    Ok(went)
}

/// How much of a run a page has at most.
#[derive(Clone, Copy)]
pub struct Extent {
    /// How many cycles.
    pub cycles: u64,
    /// How many bytes.
    pub room: usize,
}

/// Puts the last state of a page, if there is room for it.
fn push_last(
    out: &mut Vec<u8>,
    sim: &Sim,
    under_way: Option<UnderWay>,
    basis: &Basis<'_>,
    next: Option<u32>,
    room: usize,
) -> Result<(), AllocError>
    requires loaded { IsRunOf basis.now.m.now basis.now.code.now sim.now }
    requires few { sim.now.cycle < 2 ^ 63 }
    ensures { let on = basis.now in let U = stated unit_meaning on.units.now in
        (s : State) → Follows sim.now under_way s → OnOk result (out.new.items ≡ out.old.items
        ++ within room (state_text U on.m.now on.code.now.words next s)) }
{
    let from = out.len();
    push_state(out, basis, sim, under_way, next)?;
    keep_within(out, from, room);
    Ok(())
}

/// Puts a state of a run, and those after each of its cycles, with what each cycle does, as many of them
/// as a page has.
pub fn push_states(
    out: &mut Vec<u8>,
    beside: &mut Beside,
    sim: &mut Sim,
    basis: &Basis<'_>,
    input: &[u32],
    most: Extent,
) -> Result<(), AllocError>
    requires loaded { IsRunOf basis.now.m.now basis.now.code.now sim.old }
    requires few { sim.old.cycle + most.cycles < 2 ^ 62 }
    ensures { let on = basis.now in let U = stated unit_meaning on.units.now in
        let told = whole_text U on.m.now on.code.now.words in
        (s : State) → Follows sim.old beside.old.under_way s → s.rest ≡ input.now
        → OnOk result (out.new.items ≡ out.old.items
        ++ states_text (next_state U on.m.now on.code.now) told most.room most.cycles s) }
{
    remember(&mut beside.spaces, &*sim)?;
    let mut most = most;
    let mut rest = input;
    'cycles: while most.cycles > 0 {
        let from = out.len();
        let went = push_state_and_cycle(out, beside, sim, basis, first_of(rest))?;
        let Some(room) = fit(out, from, most.room) else {
            return Ok(());
        };
        let Some(took) = went else {
            return Ok(());
        };
        rest = left_of(rest, took);
        most = Extent {
            cycles: most.cycles - 1,
            room,
        };
    }
    push_last(
        out,
        &*sim,
        beside.under_way,
        basis,
        first_of(rest),
        most.room,
    )
}
