//! One core among others.

ghost use Rattle.std.specs.Prelude.{◌≡◌, ◌+◌, ◌<◌, ◌≤◌, ◌++◌, ◌^◌, length, List, ℕ};
ghost use Rattle.std.specs.Prelude.{option_to_list, None, if◌then◌else◌, IfOk, IfSome};
ghost use Rattle.tta_list.specs.Input.{IsFed};
ghost use Rattle.tta_ops.specs.Set.{stated};
ghost use Rattle.tta_code.specs.Cycle.{State};
ghost use Rattle.tta_flight.specs.Flight.{StayBeside};
ghost use Rattle.tta_sim.specs.Results.{AreKept};
ghost use Rattle.tta_kahn.specs.Network.{NetworkCore, after_step, stepped};
ghost use Rattle.tta_net.specs.Members.{IsMemberOf, StandsAs, alone, turn_of};
ghost use Rattle.tta_net.specs.Loaded.{CanLoad, IsFirst};
ghost use Rattle.tta_net.specs.declared.step_result.StepResult.TheVariants as told;

use crate::outputs::Outputs;
use crate::step_result::StepResult;
use std::alloc::{AllocError, Global};
use tta_flight::Region;
use tta_kahn::Core;
use tta_ops::UnitSet;
use tta_sim::{CycleStep, Ending, SimState};

/// A core among others: its run, the first of its units in the region of all, the core whose outputs
/// are its input, what it has output, and how many words of its input it has taken.
#[derive(Drop)]
pub struct Member {
    pub state: SimState,
    pub base: u8,
    pub feeder: Option<u8>,
    pub output: Outputs,
    pub taken: usize,
}

/// The answer of a turn with this fault. It is not in line: the answer of nearly all turns then
/// stays one that the caller knows.
#[inline(never)]
fn faulted(number: u8) -> StepResult
    ensures { result ≡ told.Fault number }
{
    StepResult::Fault(number)
}

impl Member {
    /// The start of a core's run, with its first unit at `base`, so many words of room for what it
    /// outputs, and this core as its feeder. It takes all memory that the run needs.
    pub fn load(
        alloc: Global,
        core: &Core,
        base: u8,
        feeder: Option<u8>,
        memory: Vec<u32>,
        rounds: u32,
    ) -> Result<Self, AllocError>
        requires { CanLoad core.now memory.items }
        ensures { IfOk result (IsFirst core.now base feeder memory.items rounds) }
    {
        // So that it is known here that the machine's rules hold.
        core.machine.rules();
        let state = SimState::load(alloc, &core.machine, &core.code, memory)?;
        let output = Outputs::with_room(alloc, rounds as usize)?;
        Ok(Member {
            state,
            base,
            feeder,
            output,
            taken: 0,
        })
    }

    /// Notes what a cycle output, and whether it took a word.
    fn note(&mut self, put: Option<u32>, took: bool)
        requires room { length self.old.output.words < self.old.output.room }
        requires few { self.old.taken < 2 ^ 63 }
        ensures { self.new ≡ record self.old {
          output = record self.old.output {
            words = self.old.output.words ++ option_to_list put;
          };
          taken = self.old.taken + (if took then 1 else 0);
        } }
    {
        self.output.add(put);
        if took {
            self.taken += 1;
        }
    }

    /// Makes one cycle, if the core goes on and the cycle's line is pure, so that it neither takes
    /// nor outputs a word. Else it answers `None`, and all stays. It takes no memory.
    #[inline(always)]
    pub fn turn_pure(
        &mut self,
        region: &mut Region,
        core: &Core,
        units: &UnitSet,
    ) -> Option<StepResult>
        requires loaded { IsMemberOf region.old core.now self.old }
        requires room { self.old.state.cycle < self.old.output.room }
        ensures loaded { IsMemberOf region.new core.now self.new }
        ensures kept { AreKept region.old region.new }
        ensures beside { StayBeside self.old.base (length core.now.machine.units)
            region.old region.new }
        ensures base { self.new.base ≡ self.old.base }
        ensures feeder { self.new.feeder ≡ self.old.feeder }
        ensures room { self.new.output.room ≡ self.old.output.room }
        ensures counted { self.new.state.cycle ≤ self.old.state.cycle + 1 }
        ensures waits { result ≡ None → self.new ≡ self.old }
        ensures stays { result ≡ None → region.new ≡ region.old }
        ensures next { let U = stated unit_meaning units.now in
            (c : NetworkCore State) (input : List ℕ)
            → StandsAs region.old core.now self.old c → IfSome result (λ _.
            StandsAs region.new core.now self.new (stepped (alone U core.now) 0 input c)) }
        ensures answer { let U = stated unit_meaning units.now in
            (c : NetworkCore State) (input : List ℕ)
            → StandsAs region.old core.now self.old c → IfSome result (λ t.
            t ≡ turn_of c.state (after_step (alone U core.now) 0 input c)) }
    {
        let base = self.base;
        if !self
            .state
            .cycle_pure(region, base, &core.machine, &core.code, units)
        {
            return None;
        }
        match self.state.ending() {
            Ending::Running | Ending::Halted => Some(StepResult::Ran),
            Ending::Fault { number, .. } => Some(faulted(number)),
        }
    }

    /// Makes one cycle, where `next` is the next word of the core's input, `None` where none is left.
    /// It takes no memory.
    pub fn turn(
        &mut self,
        region: &mut Region,
        core: &Core,
        units: &UnitSet,
        next: Option<u32>,
    ) -> StepResult
        requires loaded { IsMemberOf region.old core.now self.old }
        requires room { self.old.state.cycle < self.old.output.room }
        ensures loaded { IsMemberOf region.new core.now self.new }
        ensures kept { AreKept region.old region.new }
        ensures beside { StayBeside self.old.base (length core.now.machine.units)
            region.old region.new }
        ensures base { self.new.base ≡ self.old.base }
        ensures feeder { self.new.feeder ≡ self.old.feeder }
        ensures room { self.new.output.room ≡ self.old.output.room }
        ensures counted { self.new.state.cycle ≤ self.old.state.cycle + 1 }
        ensures next { let U = stated unit_meaning units.now in
            (c : NetworkCore State) (input : List ℕ)
            → StandsAs region.old core.now self.old c → IsFed input next
            → StandsAs region.new core.now self.new (stepped (alone U core.now) 0 input c) }
        ensures answer { let U = stated unit_meaning units.now in
            (c : NetworkCore State) (input : List ℕ)
            → StandsAs region.old core.now self.old c → IsFed input next
            → result ≡ turn_of c.state (after_step (alone U core.now) 0 input c) }
    {
        let base = self.base;
        match self
            .state
            .cycle(region, base, &core.machine, &core.code, units, next)
        {
            CycleStep::Ran { put, took } => {
                self.note(put, took);
                StepResult::Ran
            }
            CycleStep::Halted => StepResult::Halted,
            CycleStep::Waiting => StepResult::Waiting,
            CycleStep::Fault(number) => StepResult::Fault(number),
        }
    }
}
