//! The run of code, as the loops see it.

ghost use Rattle.std.specs.Prelude.{◌≡◌, ℕ, List, length, IfOk};
ghost use Rattle.tta_list.specs.Laid.{over};
ghost use Rattle.tta_code.specs.Legal.{IsLegalCode};
ghost use Rattle.tta_code.specs.Whole.{data_in};
ghost use Rattle.tta_code.specs.Cycle.{start};
ghost use Rattle.tta_sim.specs.Held.{Stands, IsRunOf};
ghost use Rattle.tta_code_run.specs.Cycles.{ended_of};

use std::alloc::{AllocError, Global};
use tta_arch::Machine;
use tta_code::{Code, Whole, lay};
use tta_ops::UnitSet;
use tta_report::Line;
use tta_run::{Ended, Run, Went};
use tta_sim::{CycleStep, Ending, Sim};

/// Code for a machine, and how far it has been run.
#[derive(Drop)]
pub struct CodeRun<'a> {
    pub machine: &'a Machine,
    pub code: &'a Code,
    pub sim: Sim,
}

/// Loads code for a run from data words, with its data laid over them.
pub fn load_code(
    alloc: Global,
    machine: &Machine,
    whole: &Whole,
    memory: Vec<u32>,
) -> Result<Sim, AllocError>
    requires size { length memory.items ≡ machine.now.data_words }
    requires legal { IsLegalCode machine.now whole.now.code }
    ensures start { IfOk result (λ r. (input : List ℕ)
        → Stands r (start machine.now (over (data_in whole.now) memory.items) input)) }
    ensures loaded { IfOk result (λ r. IsRunOf machine.now whole.now.code r) }
{
    let mut laid = memory;
    lay(whole.init.as_slice(), &mut laid);
    Sim::load(alloc, machine, &whole.code, laid)
}

/// How a run stands, where it does not wait.
fn ended_of(sim: &Sim) -> Ended
    ensures { result ≡ ended_of sim.now.outcome }
{
    match sim.ending() {
        Ending::Running => Ended::Running,
        Ending::Halted => Ended::Halted,
        Ending::Fault { number, cycle } => Ended::Fault { number, cycle },
    }
}

impl<'a> Run for CodeRun<'a> {
    ghost use Rattle.tta_code.specs.Cycle.{State};
    ghost use Rattle.tta_sim.specs.Held.{Stands, IsRunOf};
    ghost use Rattle.tta_code_run.specs.Cycles.{Course, meaning_of, reports};
    ghost use Rattle.tta_code_run.specs.CycleLaws.{cycles_grow, cycles_wait, cycles_report};

    ghost State = { State };

    ghost Course = { Course };

    ghost course = { λ r. record { machine = r.machine.now; code = r.code.now } };

    ghost meaning = { λ u c. meaning_of u c.machine c.code };

    ghost stands = { λ r. Stands r.sim };

    ghost loaded = { λ r. IsRunOf r.machine.now r.code.now r.sim };

    ghost moves = { λ r. r.sim.cycle };

    ghost space = { λ c. c.machine.data_words };

    ghost reports = { reports };

    #[inline(always)]
    fn go(&mut self, units: &UnitSet, next: Option<u32>) -> Went {
        match self.sim.cycle(self.machine, self.code, units, next) {
            CycleStep::Ran { put, took } => Went::On { put, took },
            CycleStep::Halted => Went::Over,
            CycleStep::Fault(_) => Went::Over,
            CycleStep::Waiting => Went::Waits,
        }
    }

    #[inline(always)]
    fn run_silent(&mut self, units: &UnitSet, most: u64) -> u64 {
        self.sim.run_silent(self.machine, self.code, units, most)
    }

    fn ended(&self) -> Ended {
        ended_of(&self.sim)
    }

    fn memory(&self) -> &[u32] {
        self.sim.memory()
    }

    fn count(&self) -> Line {
        Line::Cycles(self.sim.cycles())
    }

    ghost grows = { λ u c. cycles_grow u c.machine c.code };

    ghost stays = { λ u c. cycles_wait u c.machine c.code };

    ghost waits = { λ u c. cycles_report u c.machine c.code };
}
