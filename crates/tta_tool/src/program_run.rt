//! The run of a program, as the loops see it.

ghost use Rattle.std.specs.Prelude.{◌≡◌, ℕ, List, IfOk};
ghost use Rattle.tta_list.specs.Laid.{over};
ghost use Rattle.tta_program.specs.Program.{data_of};
ghost use Rattle.tta_program.specs.Sequential.{start};
ghost use Rattle.tta_tacrun.specs.Run.{Stands, IsRunOf};
ghost use Rattle.tta_tool.specs.Steps.{ended_of};

use std::alloc::{AllocError, Global};
use tta_ops::UnitSet;
use tta_program::{Program, lay_lines};
use tta_report::Line;
use tta_run::{Ended, Run, Went};
use tta_tacrun::{Seq, SeqStep};

/// A program, and how far it has been run.
#[derive(Drop)]
pub struct ProgramRun<'a> {
    pub program: &'a Program,
    pub seq: Seq,
}

/// Loads a program for a run from data words, with its data laid over them.
pub fn load_program(alloc: Global, program: &Program, memory: Vec<u32>) -> Result<Seq, AllocError>
    ensures start { IfOk result (λ r. (input : List ℕ)
        → Stands r (start program.now (over (data_of program.now) memory.items) input)) }
    ensures loaded { IfOk result (λ r. IsRunOf program.now r) }
{
    let mut laid = memory;
    lay_lines(program, &mut laid);
    Seq::load(alloc, program, laid)
}

/// How a run stands, where it does not wait.
fn ended_of(seq: &Seq) -> Ended
    ensures { result ≡ ended_of seq.now.outcome }
{
    if seq.halted() {
        Ended::Halted
    } else {
        Ended::Running
    }
}

impl<'a> Run for ProgramRun<'a> {
    ghost use Rattle.std.specs.Prelude.{length};
    ghost use Rattle.tta_program.specs.Sequential.{State};
    ghost use Rattle.tta_tacrun.specs.Run.{Stands, IsRunOf};
    ghost use Rattle.tta_tool.specs.Steps.{Course, meaning_of, reports};
    ghost use Rattle.tta_tool.specs.StepLaws.{steps_grow, steps_wait, steps_report};

    ghost State = { State };

    ghost Course = { Course };

    ghost course = { λ r. record { program = r.program.now; space = length r.seq.memory } };

    ghost meaning = { λ u c. meaning_of u c.program };

    ghost stands = { λ r. Stands r.seq };

    ghost loaded = { λ r. IsRunOf r.program.now r.seq };

    ghost moves = { λ r. r.seq.steps };

    ghost space = { λ c. c.space };

    ghost reports = { reports };

    #[inline(always)]
    fn go(&mut self, units: &UnitSet, next: Option<u32>) -> Went {
        match self.seq.step(self.program, units, next) {
            SeqStep::Ran { put, took } => Went::On { put, took },
            SeqStep::Halted => Went::Over,
            SeqStep::Waiting => Went::Waits,
        }
    }

    #[inline(always)]
    fn run_silent(&mut self, units: &UnitSet, most: u64) -> u64 {
        self.seq.run_silent(self.program, units, most)
    }

    fn ended(&self) -> Ended {
        ended_of(&self.seq)
    }

    fn memory(&self) -> &[u32] {
        self.seq.memory()
    }

    fn count(&self) -> Line {
        Line::Steps(self.seq.steps())
    }

    ghost grows = { λ u c. steps_grow u c.program };

    ghost stays = { λ u c. steps_wait u c.program };

    ghost waits = { λ u c. steps_report u c.program };
}
