//! A run with all that is printed of it.

ghost use Rattle.std.specs.Prelude.{◌≡◌, ◌+◌, ◌<◌, ◌^◌, [], true, false, is_err, IfOk};
ghost use Rattle.tta_ops.specs.Set.{stated};
ghost use Rattle.tta_ports.specs.Faults.{CountsFault};
ghost use Rattle.tta_ports.specs.Sink.{PutsBytes};
ghost use Rattle.tta_run.specs.declared.ended.Ended.TheVariants as ended;
ghost use Rattle.tta_run.specs.Loops.{after_moves};
ghost use Rattle.tta_run.specs.Reports.{report_text};

use crate::ended::Ended;
use crate::put::put_run;
use crate::run::Run;
use tta_ops::UnitSet;
use tta_ports::{Failed, Sink};
use tta_report::put_report;

/// How a run stands, where it waits or does not.
fn ended_of<R: Run>(run: &R, waits: bool) -> Ended
    ensures waiting { waits ≡ true → result ≡ ended.Waiting }
    ensures other { waits ≡ false
        → (s : R.State) → R.stands run.now s → result ≡ R.reports.ended s }
{
    if waits { Ended::Waiting } else { run.ended() }
}

/// Makes so many moves, or as many as there are until the run is over or has to wait, and puts all
/// that is printed of it: each word as it comes, and then how the run stands, which it also answers,
/// the data words that are not 0, and how long the run was. It takes no memory.
///
/// It answers `Failed` at the first line at which the sink does.
pub fn report_run<R: Run, S: Sink>(
    sink: &mut S,
    run: &mut R,
    units: &UnitSet,
    input: &[u32],
    bound: u64,
) -> Result<Ended, Failed>
    requires loaded { R.loaded run.old }
    requires few { R.moves run.old + bound < 2 ^ 62 }
    requires short { R.space (R.course run.old) < 2 ^ 32 }
    ensures ended { let m = R.meaning (stated unit_meaning units.now) (R.course run.old) in
        (s : R.State) → R.stands run.old s → m.rest s ≡ input.now
        → IfOk result (λ e. e ≡ R.reports.ended (after_moves m bound s)) }
    ensures puts { let m = R.meaning (stated unit_meaning units.now) (R.course run.old) in
        (s : R.State) → R.stands run.old s → m.rest s ≡ input.now → m.output s ≡ []
        → PutsBytes (report_text m R.reports (after_moves m bound s))
        (S.output sink.old).taken (S.output sink.new).taken result }
    ensures cause { CountsFault (is_err result)
        (S.output sink.old).faults (S.output sink.new).faults }
{
    let waits = put_run(sink, run, units, input, bound)?;
    let count = run.count();
    let ended = ended_of(&*run, waits);
    put_report(sink, &ended.line(), run.memory(), &count)?;
    Ok(ended)
}
