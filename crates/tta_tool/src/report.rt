//! A run whose report is how the command ends.

ghost use Rattle.std.specs.Prelude.{◌≡◌, ◌+◌, ◌<◌, ◌^◌, []};
ghost use Rattle.tta_ops.specs.Set.{stated};
ghost use Rattle.tta_run.specs.Loops.{after_moves};
ghost use Rattle.tta_run.specs.Reports.{report_text};
ghost use Rattle.tta_tool.specs.Runs.{ReportEnds};

use tta_load::Status;
use tta_ops::UnitSet;
use tta_ports::{Failed, Sink};
use tta_run::{Ended, Run, report_run};

/// Makes at most so many moves and puts all that is printed of the run, and answers how the command
/// ends. It takes no memory.
pub fn run_to_status<R: Run, S: Sink>(
    sink: &mut S,
    run: &mut R,
    units: &UnitSet,
    input: &[u32],
    bound: u64,
) -> Status
    requires loaded { R.loaded run.old }
    requires few { R.moves run.old + bound < 2 ^ 62 }
    requires short { R.space (R.course run.old) < 2 ^ 32 }
    ensures { let m = R.meaning (stated unit_meaning units.now) (R.course run.old) in
        (s : R.State) → R.stands run.old s → m.rest s ≡ input.now → m.output s ≡ []
        → ReportEnds (report_text m R.reports (after_moves m bound s))
        (R.reports.ended (after_moves m bound s))
        (S.output sink.old) (S.output sink.new) result }
{
    match report_run(sink, run, units, input, bound) {
        Ok(Ended::Halted) => Status::Ok,
        Ok(Ended::Running) => Status::Running,
        Ok(Ended::Waiting) => Status::Waiting,
        Ok(Ended::Fault { number, cycle }) => Status::MachineFault {
            code: number,
            cycle,
        },
        Err(Failed) => Status::WriteFault,
    }
}
