//! A run.

ghost use Rattle.std.specs.Prelude.{◌≡◌, ◌+◌, ◌<◌, ◌≤◌, ◌^◌, List, ℕ, length, slice_index, IfOk};
ghost use Rattle.std.specs.Prelude.{◌&&◌, is_none, false};
ghost use Rattle.tta_ops.specs.Set.{stated};
ghost use Rattle.tta_program.specs.Sequential.{State, Running, next, start};
ghost use Rattle.tta_list.specs.Input.{IsFed};
ghost use Rattle.tta_list.specs.Iterate.{iterate};
ghost use Rattle.tta_tacrun.specs.Run.{Stands, IsAnswer, IsSilentRun, GoesOn, IsRunOf};
ghost use Rattle.tta_tacrun.specs.Run.{is_over, steps_of, goes_silent};
ghost use Rattle.tta_tacrun.specs.declared.answer.SeqStep.TheVariants.{Waiting};

use crate::answer::SeqStep;
use crate::basis::Basis;
use crate::calls::Calls;
use crate::carry::{carry, step_of, takes};
use crate::code::{flat_code, proc_in};
use crate::flat_proc::FlatProc;
use crate::phase::Phase;
use crate::relations::Relations;
use crate::words::Words;
use std::alloc::{AllocError, Global};
use std::marker::Model;
use tta_ops::UnitSet;
use tta_program::Program;

/// The run of a program by its sequential meaning: the calls that are under way, the data words
/// and the number of steps. The input and what was output are not kept.
#[derive(Drop)]
pub struct Seq {
    calls: Calls,
    /// The steps of each procedure.
    code: Vec<FlatProc>,
    memory: Words,
    relations: Relations,
    steps: u64,
    phase: Phase,
}

impl Model for Seq {
    ghost use Rattle.tta_tacrun.specs.Code.{code_said};
    ghost use Rattle.tta_tacrun.specs.Run.{Run, run_of};

    ghost Value = { Run };

    ghost view = { λ s. run_of s.phase s.calls (code_said s.code.items) s.memory s.steps };
}

/// Whether a step has to wait: it takes a word of the input, and none is left.
fn is_stuck(took: bool, next: Option<u32>) -> bool
    ensures { result ≡ (took && is_none next) }
{
    took && next.is_none()
}

impl Seq {
    /// The start of a run: `main` at its first step with every variable 0, and these data words.
    ///
    /// It takes all memory that the run needs: room for the variables and the steps of each procedure,
    /// and for a call of each.
    pub fn load(alloc: Global, p: &Program, memory: Vec<u32>) -> Result<Self, AllocError>
        ensures start { IfOk result (λ r. (input : List ℕ)
            → Stands r (start p.now memory.items input)) }
        ensures loaded { IfOk result (λ r. IsRunOf p.now r) }
    {
        Ok(Seq {
            calls: Calls::of(alloc, p)?,
            code: flat_code(alloc, p)?,
            memory: Words::of(memory),
            relations: Relations::new(),
            steps: 0,
            phase: Phase::Running,
        })
    }

    /// Carries out one step of the program that was loaded, where `next` is the next word of the
    /// input, `None` where none is left. It answers `Ran` with the word that it outputs, if any. It
    /// answers `Halted` exactly where the run has halted before, and `Waiting` exactly where the
    /// step takes a word of the input and there is none; then it changes nothing. It takes no
    /// memory.
    #[inline(always)]
    pub fn step(&mut self, p: &Program, units: &UnitSet, next: Option<u32>) -> SeqStep
        requires loaded { IsRunOf p.now self.old }
        requires few { self.old.steps < 2 ^ 62 }
        ensures loaded { IsRunOf p.now self.new }
        ensures space { length self.new.memory ≡ length self.old.memory }
        ensures counted { self.new.steps ≡ self.old.steps + steps_of result }
        ensures next { let U = stated unit_meaning units.now in (s : State)
            → Stands self.old s → IsFed s.rest next → GoesOn U p.now self.new s result }
        ensures answer { let U = stated unit_meaning units.now in (s : State)
            → Stands self.old s → IsFed s.rest next → IsAnswer U p.now s result }
        ensures waits { result ≡ Waiting → self.new ≡ self.old }
    {
        match self.phase {
            Phase::Running => {}
            Phase::Stopped | Phase::Returned => return SeqStep::Halted,
        }
        let step = step_of(p, self.calls.top()).unwrap();
        let took = takes(step);
        if is_stuck(took, next) {
            return SeqStep::Waiting;
        }
        let basis = Basis { p, units };
        let (phase, put) = carry(
            &mut self.calls,
            &mut self.memory,
            &mut self.relations,
            &basis,
            step,
            next.unwrap_or(0),
        );
        self.phase = phase;
        self.steps += 1;
        SeqStep::Ran { put, took }
    }

    /// Carries out so many steps of the program that was loaded, or as many as there are until one
    /// outputs or takes a word, begins or ends a call, or ends the run. It answers how many it
    /// carried out, which may be none. It takes no memory.
    pub fn run_silent(&mut self, p: &Program, units: &UnitSet, most: u64) -> u64
        requires loaded { IsRunOf p.now self.old }
        requires few { self.old.steps + most < 2 ^ 62 }
        ensures loaded { IsRunOf p.now self.new }
        ensures space { length self.new.memory ≡ length self.old.memory }
        ensures within { result ≤ most }
        ensures stops { result < most → self.new.outcome ≡ Running
            → goes_silent p.now self.new.stack ≡ false }
        ensures counted { self.new.steps ≡ self.old.steps + result }
        ensures next { let U = stated unit_meaning units.now in (s : State)
            → Stands self.old s → IsSilentRun self.new s (iterate result (next U p.now) s) }
    {
        match self.phase {
            Phase::Running => {}
            Phase::Stopped | Phase::Returned => return 0,
        }
        // So that the rules of programs are known here.
        p.rules();
        let Some(flat) = proc_in(self.code.as_slice(), self.calls.top().proc) else {
            return 0;
        };
        let basis = Basis { p, units };
        let (memory, relations) = (&mut self.memory, &mut self.relations);
        let made = self.calls.run_silent(memory, relations, &basis, flat, most);
        self.steps += made;
        made
    }

    /// Whether the run has halted.
    pub fn halted(&self) -> bool
        ensures over { result ≡ is_over self.now.outcome }
        ensures goes_on { result ≡ false → self.now.outcome ≡ Running }
    {
        match self.phase {
            Phase::Running => false,
            Phase::Stopped | Phase::Returned => true,
        }
    }

    /// How many steps were carried out.
    pub fn steps(&self) -> u64
        ensures { result ≡ self.now.steps }
    {
        self.steps
    }

    /// All data words, from address 0 on.
    pub fn memory(&self) -> &[u32]
        ensures { result.now ≡ self.now.memory }
    {
        self.memory.as_slice()
    }

    /// A data word.
    pub fn mem(&self, i: u32) -> u32
        requires { i < length self.now.memory }
        ensures { result ≡ slice_index self.now.memory i }
    {
        self.memory.get(i as usize)
    }
}
