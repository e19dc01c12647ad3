//! What is printed of cores that have made rounds, and how the command ends then.

ghost use Rattle.std.specs.Prelude.{◌≡◌, ◌≤◌, ◌<◌, length, is_err};
ghost use Rattle.tta_ports.specs.Faults.{CountsFault};
ghost use Rattle.tta_ports.specs.Sink.{PutsBytes};
ghost use Rattle.tta_report.specs.Lines.{lines_text};
ghost use Rattle.tta_net.specs.Clusters.{words_of, fault_by};
ghost use Rattle.tta_net_command.specs.Net as spec;

use tta_load::Status;
use tta_net::{Cluster, StepResult};
use tta_ports::{Failed, Sink};
use tta_report::{Line, put_core};

/// The line that says how a core's last turn ended, by the fault that it is at.
fn turn_line(turn: StepResult, fault: Option<(u8, u64)>) -> Line
    ensures { result ≡ spec.turn_line fault turn }
{
    match (turn, fault) {
        (StepResult::Ran, _) => Line::Running,
        (StepResult::Halted, _) => Line::Halted,
        (StepResult::Waiting, _) => Line::Waiting,
        (StepResult::Fault(_), Some((code, cycle))) => Line::Fault { code, cycle },
        (StepResult::Fault(_), None) => Line::Running,
    }
}

/// Puts all that is printed of cores, where these were their last turns. It takes no memory.
///
/// It answers `Failed` at the first line at which the sink does, which has then taken a prefix of
/// all lines.
pub fn put_net<S: Sink>(sink: &mut S, cluster: &Cluster, last: &[StepResult]) -> Result<(), Failed>
    requires cores { length last.now ≤ length cluster.now.members }
    requires few { length last.now ≤ 8 }
    ensures grows { let lines = spec.net_lines (words_of cluster.now) (fault_by cluster.now) 0 in
        PutsBytes (lines_text (lines last.now))
        (S.output sink.old).taken (S.output sink.new).taken result }
    ensures cause { CountsFault (is_err result)
        (S.output sink.old).faults (S.output sink.new).faults }
{
    let mut core = 0;
    'cores: for turn in last {
        let line = turn_line(*turn, cluster.fault(core));
        put_core(sink, core, cluster.output(core), &line)?;
        core += 1;
    }
    Ok(())
}

/// The earlier of two faults that is there.
fn earlier(one: Option<(u8, u64)>, other: Option<(u8, u64)>) -> Option<(u8, u64)>
    ensures { result ≡ spec.earlier one other }
{
    match one {
        Some(fault) => Some(fault),
        None => other,
    }
}

/// The fault of the least of so many cores that is at one.
pub fn first_fault(cluster: &Cluster, count: u8) -> Option<(u8, u64)>
    requires { count ≤ length cluster.now.members }
    ensures { result ≡ spec.first_fault (fault_by cluster.now) count }
{
    let mut first = None;
    let mut core = 0;
    'cores: while core < count {
        first = earlier(first, cluster.fault(core));
        core += 1;
    }
    first
}

/// How the command ends: where all rounds were made and some core ran in each, or by the first fault.
pub fn rounds_status(is_running: bool, fault: Option<(u8, u64)>) -> Status
    ensures { result ≡ spec.rounds_status is_running fault }
{
    if is_running {
        return Status::Running;
    }
    match fault {
        Some((code, cycle)) => Status::MachineFault { code, cycle },
        None => Status::Ok,
    }
}
