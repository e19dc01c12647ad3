//! A run whose results are kept in a region that it is given.

ghost use Rattle.std.specs.Prelude.{◌≡◌, ◌+◌, ◌<◌, ◌≤◌, ◌^◌, [], ℕ, List, length};
ghost use Rattle.std.specs.Prelude.{IfOk, if◌then◌else◌, true, false, ◌&&◌, is_none};
ghost use Rattle.tta_ops.specs.Set.{stated};
ghost use Rattle.tta_code.specs.Cycle.{State, Running, next as next_state, start};
ghost use Rattle.tta_code.specs.Legal.{IsLegalCode};
ghost use Rattle.tta_flight.specs.Flight.{StayBeside};
ghost use Rattle.tta_sim.specs.Known.{KeepsWords};
ghost use Rattle.tta_sim.specs.Results.{Results, AreResultsOf, AreKept, HasUnits, units_of};
ghost use Rattle.tta_list.specs.Input.{IsFed};
ghost use Rattle.tta_sim.specs.Held.{StandsWith, GoesWith, IsAnswer, IsSilentRun, IsStateOf, has_taken};
ghost use Rattle.tta_sim.specs.Held.{cycles_of, goes_pure};
ghost use Rattle.tta_sim.specs.declared.cycle_step.CycleStep.TheVariants.{Waiting};

use crate::carry::{carry, carry_pure};
use crate::control::{Control, Phase};
use crate::cycle_step::CycleStep;
use crate::decode::decode;
use crate::decoded::Line;
use crate::fault::NO_INSTRUCTION;
use crate::results::Part;
use crate::run::{Context, Run};
use crate::store::{CycleBuffers, Store};
use std::alloc::{AllocError, Global};
use std::marker::Model;
use tta_arch::Machine;
use tta_code::Code;
use tta_flight::Region;
use tta_list::Items;
use tta_ops::UnitSet;

/// The run of a machine's code, cycle by cycle, but for its results, which some units of a region
/// keep: the words of places and spaces, and control. The input and the output are not kept.
#[derive(Drop)]
pub struct SimState {
    pub(crate) run: Run,
    /// The code that is run, decoded.
    pub(crate) lines: Items<Line>,
}

impl Model for SimState {
    ghost use Rattle.tta_sim.specs.Held.{HeldState};
    ghost use Rattle.tta_sim.specs.Kept.{held_of};

    ghost Value = { HeldState };

    ghost view = { λ s. held_of s.lines s.run.store s.run.control };
}

/// The units of a machine in a region, where the first of them is `base`.
pub fn part_of(base: u8, m: &Machine) -> Part
    ensures { result ≡ record { base = base; count = length m.now.units } }
{
    Part {
        base,
        count: m.units.len() as u8,
    }
}

impl SimState {
    /// The start of a run: the first instruction comes, nothing was ever written, every frame word
    /// is 0, and the data words are these. No result was started.
    ///
    /// It takes all memory that the run needs: room for each register and operand port, and for the
    /// code once more, decoded.
    pub fn load(
        alloc: Global,
        m: &Machine,
        code: &Code,
        memory: Vec<u32>,
    ) -> Result<Self, AllocError>
        requires size { length memory.items ≡ m.now.data_words }
        requires legal { IsLegalCode m.now code.now }
        ensures start { IfOk result (λ h. (r : Results) (input : List ℕ) → AreResultsOf [] 0 r
            → StandsWith r h (start m.now memory.items input)) }
        ensures loaded { IfOk result (λ h. IsStateOf m.now code.now h) }
    {
        let frame_words = m.frame_words as usize;
        let lines = decode(alloc, m, code)?;
        let buffers = CycleBuffers::none(alloc)?;
        let store = Store::unset(alloc, frame_words, memory)?;
        let control = Control::first();
        let run = Run {
            store,
            control,
            buffers,
        };
        Ok(SimState { run, lines })
    }

    /// Carries out one cycle of the code that was loaded, where `next` is the next word of the
    /// input, `None` where none is left, and the machine's first unit is `base` of the region. Every
    /// unit that is none of the machine's stays. It answers as a cycle of a `Sim` does, and it takes
    /// no memory.
    #[inline(always)]
    pub fn cycle(
        &mut self,
        region: &mut Region,
        base: u8,
        m: &Machine,
        code: &Code,
        units: &UnitSet,
        next: Option<u32>,
    ) -> CycleStep
        requires loaded { IsStateOf m.now code.now self.old }
        requires has_units { HasUnits base m.now region.old }
        requires few { self.old.cycle < 2 ^ 62 }
        ensures loaded { IsStateOf m.now code.now self.new }
        ensures kept { AreKept region.old region.new }
        ensures beside { StayBeside base (length m.now.units) region.old region.new }
        ensures words { KeepsWords self.old.places self.new.places
            (units_of base m.now region.old) (units_of base m.now region.new) }
        ensures counted { self.new.cycle ≡ self.old.cycle + cycles_of result }
        ensures next { let U = stated unit_meaning units.now in (s : State)
            → StandsWith (units_of base m.now region.old) self.old s → IsFed s.rest next
            → GoesWith (units_of base m.now region.new) self.new s
            (next_state U m.now code.now s) result }
        ensures answer { let U = stated unit_meaning units.now in (s : State)
            → StandsWith (units_of base m.now region.old) self.old s → IsFed s.rest next
            → IsAnswer U m.now code.now s result }
        ensures takes { (has_taken result && is_none next) ≡ false }
        ensures waits { result ≡ Waiting → self.new ≡ self.old }
        ensures stays { result ≡ Waiting → region.new ≡ region.old }
    {
        match self.run.control.phase {
            Phase::Running => {}
            Phase::Halted => return CycleStep::Halted,
            Phase::Fault(number) => return CycleStep::Fault(number),
        }
        if self.run.control.pc as usize >= code.words.len() {
            self.run.control.phase = Phase::Fault(NO_INSTRUCTION);
            return CycleStep::Fault(NO_INSTRUCTION);
        }
        let line = &self.lines.as_slice()[self.run.control.pc as usize];
        let context = Context {
            part: part_of(base, m),
            delay: m.control.delay,
            units,
        };
        carry(&mut self.run, region, &context, line, next)
    }

    /// Carries out one cycle of the code that was loaded, if the run goes on and the cycle's line is
    /// pure, so that it outputs nothing and takes nothing. It answers whether it did; else all
    /// stays. It takes no memory.
    #[inline(always)]
    pub fn cycle_pure(
        &mut self,
        region: &mut Region,
        base: u8,
        m: &Machine,
        code: &Code,
        units: &UnitSet,
    ) -> bool
        requires loaded { IsStateOf m.now code.now self.old }
        requires has_units { HasUnits base m.now region.old }
        requires few { self.old.cycle < 2 ^ 62 }
        ensures loaded { IsStateOf m.now code.now self.new }
        ensures kept { AreKept region.old region.new }
        ensures beside { StayBeside base (length m.now.units) region.old region.new }
        ensures words { KeepsWords self.old.places self.new.places
            (units_of base m.now region.old) (units_of base m.now region.new) }
        ensures waits { result ≡ false → self.new ≡ self.old }
        ensures stays { result ≡ false → region.new ≡ region.old }
        ensures stops { result ≡ false
            → goes_pure self.new.lines self.new.pc self.new.outcome ≡ false }
        ensures runs { result ≡ true → self.old.outcome ≡ Running }
        ensures grows { self.old.cycle ≤ self.new.cycle }
        ensures counted { self.new.cycle ≤ self.old.cycle + (if result then 1 else 0) }
        ensures next { let U = stated unit_meaning units.now in (s : State)
            → StandsWith (units_of base m.now region.old) self.old s
            → IsSilentRun (StandsWith (units_of base m.now region.new) self.new) s
            (if result then next_state U m.now code.now s else s) }
    {
        // So that it is known here that the machine's rules hold.
        m.rules();
        match self.run.control.phase {
            Phase::Running => {}
            Phase::Halted | Phase::Fault(_) => return false,
        }
        if self.run.control.pc as usize >= code.words.len() {
            return false;
        }
        let line = &self.lines.as_slice()[self.run.control.pc as usize];
        if !line.pure {
            return false;
        }
        let context = Context {
            part: part_of(base, m),
            delay: m.control.delay,
            units,
        };
        carry_pure(&mut self.run, region, &context, line);
        true
    }
}
