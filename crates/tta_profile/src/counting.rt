//! Counting over the cycles of a run.

ghost use Rattle.std.specs.Prelude.{◌≡◌, ◌+◌, ◌*◌, ◌<◌, ◌≤◌, ◌^◌, ℕ, false, length, map};
ghost use Rattle.std.specs.Prelude.{replicate, slice_get, OnOk};
ghost use Rattle.std.specs.Option.{option_copied, option_map_or};
ghost use Rattle.tta_ops.specs.Set.{stated};
ghost use Rattle.tta_arch.specs.Joins.{has_bit};
ghost use Rattle.tta_list.specs.Input.{IsFed};
ghost use Rattle.tta_code.specs.Cycle.{State, next as next_state};
ghost use Rattle.tta_sim.specs.Held.{Stands, IsRunOf};
ghost use Rattle.tta_sim.specs.Places.{HasWritten};
ghost use Rattle.tta_places.specs.Carried.{carried, coming, slots_of};
ghost use Rattle.tta_profile.specs.Counts.{AreCounts, is_stopped, most_buses, slot_at};
ghost use Rattle.tta_profile.specs.Outside.{AreOutside};
ghost use Rattle.tta_profile.specs.Steps.{AreSmall, AreSmallOutside, Goes, GoesOutside};

use crate::counts::Counts;
use crate::following::{Followed, note_carried};
use crate::outside::count_outside;
use crate::stopped::stopped_of;
use std::alloc::AllocError;
use tta_arch::Machine;
use tta_code::{Code, Instruction};
use tta_ops::UnitSet;
use tta_places::{coming, slots_of, write_made};
use tta_run::{first_of, left_of};
use tta_sim::{CycleStep, Sim};

/// What a run stands on.
#[derive(Clone, Copy)]
pub struct Basis<'a> {
    pub m: &'a Machine,
    pub code: &'a Code,
    pub units: &'a UnitSet,
}

/// The instruction of an address, if there is one.
fn instruction_at(code: &Code, address: u32) -> Option<&Instruction>
    ensures { option_copied result ≡ slice_get code.now.words address }
{
    code.words.as_slice().get(address as usize)
}

/// The buses whose moves their guards stop in the next instruction.
fn stopped_next(sim: &Sim, basis: &Basis<'_>) -> u16
    requires { IsRunOf basis.now.m.now basis.now.code.now sim.now }
    ensures { (s : State) → Stands sim.now s → (bus : ℕ) → has_bit result bus
        ≡ option_map_or (is_stopped s) (slot_at basis.now.code.now.words s.pc bus) false }
{
    let m = basis.m;
    match instruction_at(basis.code, sim.pc()) {
        None => 0,
        Some(i) => stopped_of(sim, m.units.len(), i.moves.as_slice()),
    }
}

/// Carries out a cycle and counts it. It answers whether the cycle took a word of the input, or `None`
/// where none was carried out, and none will be: the run has halted, faults or waits.
fn count_cycle(
    followed: &mut Followed,
    sim: &mut Sim,
    counts: &mut Counts,
    basis: &Basis<'_>,
    next: Option<u32>,
) -> Option<bool>
    requires loaded { IsRunOf basis.now.m.now basis.now.code.now sim.old }
    requires few { sim.old.cycle < 2 ^ 62 }
    requires size { length counts.old.executed ≡ length basis.now.code.now.words }
    requires room { length counts.old.passed ≡ most_buses * length basis.now.code.now.words }
    requires room_data { length counts.old.outside_data ≡ length basis.now.code.now.words }
    requires room_frame { length counts.old.outside_frame ≡ length basis.now.code.now.words }
    ensures loaded { IsRunOf basis.now.m.now basis.now.code.now sim.new }
    ensures counted { sim.new.cycle ≤ sim.old.cycle + 1 }
    ensures size { length counts.new.executed ≡ length counts.old.executed }
    ensures room { length counts.new.passed ≡ length counts.old.passed }
    ensures room_data { length counts.new.outside_data ≡ length counts.old.outside_data }
    ensures room_frame { length counts.new.outside_frame ≡ length counts.old.outside_frame }
    ensures goes { let on = basis.now in
        let step = next_state (stated unit_meaning on.units.now) on.m.now on.code.now in
        (s : State) → Stands sim.old s → IsFed s.rest next → AreSmall counts.old
        → Goes step on.code.now.words (Stands sim.new) s counts.old counts.new result }
    ensures outside { let on = basis.now in
        let step = next_state (stated unit_meaning on.units.now) on.m.now on.code.now in
        (s : State) → Stands sim.old s → IsFed s.rest next → HasWritten followed.old.row s.written
        → followed.old.carried.items ≡ map (carried s) (slots_of (coming on.code.now.words s))
        → AreSmallOutside counts.old → GoesOutside step on.m.now on.code.now.words
        (HasWritten followed.new.row) s counts.old counts.new result }
{
    let m = basis.m;
    m.rules();
    let pc = sim.pc();
    let came = coming(&*sim, basis.code);
    let stopped = stopped_next(&*sim, basis);
    match sim.cycle(m, basis.code, basis.units, next) {
        CycleStep::Ran { took, .. } => {
            write_made(&mut followed.row, m, pc, came, followed.carried.as_slice());
            counts.add(pc as usize, stopped);
            count_outside(counts, &*followed, m, pc as usize, slots_of(came));
            Some(took)
        }
        CycleStep::Halted => None,
        CycleStep::Fault(_) => None,
        CycleStep::Waiting => None,
    }
}

/// Carries out at most so many cycles of a run, and counts them. It fails only where there is no memory.
pub fn count_cycles(
    followed: &mut Followed,
    sim: &mut Sim,
    counts: &mut Counts,
    basis: &Basis<'_>,
    input: &[u32],
    bound: u64,
) -> Result<(), AllocError>
    requires loaded { IsRunOf basis.now.m.now basis.now.code.now sim.old }
    requires few { sim.old.cycle + bound < 2 ^ 62 }
    requires none { counts.old.executed ≡ replicate (length basis.now.code.now.words) 0 }
    requires none_passed { counts.old.passed
        ≡ replicate (most_buses * length basis.now.code.now.words) 0 }
    requires none_data { counts.old.outside_data
        ≡ replicate (length basis.now.code.now.words) 0 }
    requires none_frame { counts.old.outside_frame
        ≡ replicate (length basis.now.code.now.words) 0 }
    ensures size { length counts.new.executed ≡ length basis.now.code.now.words }
    ensures counts { let on = basis.now in
        let step = next_state (stated unit_meaning on.units.now) on.m.now on.code.now in
        (s : State) → Stands sim.old s → s.rest ≡ input.now
        → OnOk result (AreCounts step on.code.now.words s bound counts.new) }
    ensures outside { let on = basis.now in
        let step = next_state (stated unit_meaning on.units.now) on.m.now on.code.now in
        (s : State) → Stands sim.old s → s.rest ≡ input.now
        → HasWritten followed.old.row s.written
        → OnOk result (AreOutside step on.m.now on.code.now.words s bound counts.new) }
{
    let mut left = bound;
    let mut rest = input;
    'cycles: while left > 0 {
        note_carried(followed, basis, &*sim)?;
        match count_cycle(followed, sim, counts, basis, first_of(rest)) {
            None => return Ok(()),
            Some(took) => rest = left_of(rest, took),
        }
        left -= 1;
    }
    Ok(())
}
