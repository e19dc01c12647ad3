//! One instruction.

ghost use Rattle.std.specs.Prelude.{◌≡◌, ◌+◌, ◌<◌, ◌^◌, ◌++◌, ◌&&◌, ℕ, Option, true, fold, is_none};
ghost use Rattle.std.specs.Prelude.{None, option_map, slice_index_or};
ghost use Rattle.std.specs.List.{find, AllByRecursion};
ghost use Rattle.tta_ops.specs.Set.{stated};
ghost use Rattle.tta_arch.specs.Effects.{Written, store_data, store_frame};
ghost use Rattle.tta_sim.specs.Places.{place_count, HasWritten};
ghost use Rattle.tta_sim.specs.Known.{Grows};
ghost use Rattle.tta_sim.specs.Starts.{puts};
ghost use Rattle.tta_sim.specs.Writing.{numbered, ArePlaces};
ghost use Rattle.tta_sim.specs.declared.cycle_step.CycleStep.TheVariants.{Fault};
ghost use Rattle.tta_sim.specs.Kept.{kept_as, is_silent, IsAtLine, IsCycle};

use crate::begin::begin_all;
use crate::control::{Control, Phase};
use crate::control_moves::acting_in;
use crate::cycle_step::CycleStep;
use crate::decoded::Line;
use crate::dues::note_results;
use crate::lines::Write;
use crate::ready::{find_fault, find_pure_fault};
use crate::results::Results;
use crate::run::{Context, Run};
use crate::spaces::{put_out, store_all};
use crate::starts::{Start, any_takes};
use crate::store::Store;
use crate::writing::write_all;
use tta_flight::Region;

/// Stops the run at a fault.
#[inline(always)]
fn stop(control: &mut Control, number: u8) -> CycleStep
    ensures stopped { control.new ≡ record control.old { phase = Phase.Fault number } }
    ensures answer { result ≡ Fault number }
{
    control.phase = Phase::Fault(number);
    CycleStep::Fault(number)
}

/// Whether a cycle has to wait: it takes a word of the input, and none is left.
#[inline(always)]
fn is_stuck(took: bool, next: Option<u32>) -> bool
    ensures { result ≡ (took && is_none next) }
{
    took && next.is_none()
}

/// Stores the words of a cycle's operations, and answers the word that they output, if any.
#[inline(always)]
fn put_all(store: &mut Store, starts: &[Start]) -> Option<u32>
    ensures places { store.new.places ≡ store.old.places }
    ensures cycle { store.new.cycle ≡ store.old.cycle }
    ensures data { store.new.memory.items ≡ fold store_data store.old.memory.items starts.now }
    ensures frame { store.new.frame.items ≡ fold store_frame store.old.frame.items starts.now }
    ensures put { result ≡ option_map (λ t. t.word) (find puts starts.now) }
{
    store_all(&mut store.memory, &mut store.frame, starts);
    put_out(starts)
}

/// Writes the words that were collected, and goes on to the next cycle.
#[inline(always)]
fn finish_cycle(store: &mut Store, writes: &[Write])
    requires writes { AllByRecursion (λ w. w.place < place_count) writes.now }
    requires few { store.old.cycle + 256 < 2 ^ 64 }
    ensures written { (new old : Written) → writes.now ≡ numbered new → ArePlaces new
        → HasWritten store.old.places old → HasWritten store.new.places (new ++ old) }
    ensures grows { Grows (λ k. slice_index_or store.old.places k None)
        (λ k. slice_index_or store.new.places k None) }
    ensures cycle { store.new.cycle ≡ store.old.cycle + 1 }
    ensures data { store.new.memory.items ≡ store.old.memory.items }
    ensures frame { store.new.frame.items ≡ store.old.frame.items }
{
    write_all(&mut store.places, writes);
    store.cycle += 1;
}

/// Carries out a cycle with a pure line: it neither stores, outputs nor takes a word, and has no
/// control move.
#[inline(always)]
pub fn carry_pure(
    run: &mut Run,
    region: &mut Region,
    context: &Context<'_>,
    line: &Line,
) -> CycleStep
    requires pure { line.now.pure ≡ true }
    requires ready { let old = kept_as run.old.store run.old.control region.old in
        IsAtLine context.now.part line.now old }
    ensures silent { is_silent result ≡ true }
    ensures cycle { (next : Option ℕ) → let U = stated unit_meaning context.now.units.now in
        let old = kept_as run.old.store run.old.control region.old in
        let new = kept_as run.new.store run.new.control region.new in
        IsCycle U context.now.part context.now.delay line.now next old new result }
{
    let results = Results::of(region, context.part);
    let units = context.units;
    if let Some(number) = find_pure_fault(&mut run.buffers, &run.store, &results, units, line) {
        return stop(&mut run.control, number);
    }
    begin_all(region, context.part, run.buffers.dues.as_slice());
    finish_cycle(&mut run.store, run.buffers.writes.as_slice());
    // No control move acted, so no delay is asked for.
    run.control.advance(None, run.store.cycle, 0);
    CycleStep::Ran {
        put: None,
        took: false,
    }
}

/// Carries out a cycle with any line.
#[inline(always)]
fn carry_any(
    run: &mut Run,
    region: &mut Region,
    context: &Context<'_>,
    line: &Line,
    next: Option<u32>,
) -> CycleStep
    requires { let old = kept_as run.old.store run.old.control region.old in
        IsAtLine context.now.part line.now old }
    ensures { let U = stated unit_meaning context.now.units.now in
        let old = kept_as run.old.store run.old.control region.old in
        let new = kept_as run.new.store run.new.control region.new in
        IsCycle U context.now.part context.now.delay line.now next old new result }
{
    let results = Results::of(region, context.part);
    if let Some(number) = find_fault(&mut run.buffers, &run.store, &results, &run.control, line) {
        return stop(&mut run.control, number);
    }
    let starts = run.buffers.starts.as_slice();
    let took = any_takes(starts);
    if is_stuck(took, next) {
        return CycleStep::Waiting;
    }
    let acting = acting_in(&run.store.places, &results, line);
    let word = next.unwrap_or(0);
    note_results(
        &mut run.buffers.dues,
        context.units,
        &run.store,
        word,
        starts,
    );
    begin_all(region, context.part, run.buffers.dues.as_slice());
    let put = put_all(&mut run.store, starts);
    finish_cycle(&mut run.store, run.buffers.writes.as_slice());
    run.control.advance(acting, run.store.cycle, context.delay);
    CycleStep::Ran { put, took }
}

/// Carries out a cycle of a run that goes on, with the line at its address, where `next` is the
/// next word of the input.
#[inline(always)]
pub fn carry(
    run: &mut Run,
    region: &mut Region,
    context: &Context<'_>,
    line: &Line,
    next: Option<u32>,
) -> CycleStep
    requires { let old = kept_as run.old.store run.old.control region.old in
        IsAtLine context.now.part line.now old }
    ensures { let U = stated unit_meaning context.now.units.now in
        let old = kept_as run.old.store run.old.control region.old in
        let new = kept_as run.new.store run.new.control region.new in
        IsCycle U context.now.part context.now.delay line.now next old new result }
{
    if line.pure {
        return carry_pure(run, region, context, line);
    }
    carry_any(run, region, context, line, next)
}
