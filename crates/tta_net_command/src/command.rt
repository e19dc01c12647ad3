//! The command `net`: cores that are joined by queues make rounds.

ghost use Rattle.std.specs.Prelude.{◌≡◌, ◌≤◌, ◌<◌, ◌^◌, ℕ, List, length, map, replicate};
ghost use Rattle.std.specs.String.{string_bytes};
ghost use Rattle.tta_ops.specs.Set.{stated};
ghost use Rattle.tta_kahn.specs.Network.{joined};
ghost use Rattle.tta_kahn.specs.Cluster.{first_states};
ghost use Rattle.tta_net.specs.Loaded.{CanLoadAll};
ghost use Rattle.tta_net.specs.Clusters.{IsClusterOf, StandsFor, feeds_of, made_by};
ghost use Rattle.tta_net.specs.declared.step_result.StepResult.TheVariants.{Ran};
ghost use Rattle.tta_net_command.specs.CoreFiles.{cores_in};
ghost use Rattle.tta_net_command.specs.Net.{HasMadeRounds, NetReports, CoresReport, Nets};

use crate::cores::{Cores, core_files};
use crate::files::links_file;
use crate::report::{first_fault, put_net, rounds_status};
use crate::request::{FILES, NetRequest};
use std::alloc::Global;
use tta_load::Status;
use tta_net::{Cluster, Core, StepResult};
use tta_ops::UnitSet;
use tta_ports::{Failed, Files, Sink};

/// Makes the rounds of cores that were loaded and reports them. `last` is `Ran` for each core at
/// first. It takes no memory.
fn make_rounds<S: Sink>(
    units: &UnitSet,
    sink: &mut S,
    cluster: &mut Cluster,
    cores: &[Core],
    last: &mut [StepResult],
) -> Status
    requires loaded { IsClusterOf cores.now cluster.old }
    requires none { (k : ℕ) → made_by cluster.old k ≡ 0 }
    requires few { length cores.now ≤ 8 }
    requires turns { last.old ≡ replicate (length cores.now) Ran }
    ensures { let U = stated unit_meaning units.now in (memories : List (List ℕ))
        → StandsFor cores.now cluster.old (joined (first_states cores.now memories))
        → HasMadeRounds U (feeds_of cluster.old) cores.now memories cluster.old.rounds
        (S.output sink.old) (S.output sink.new) result }
{
    let is_running = cluster.run(cores, units, last);
    match put_net(sink, cluster, last) {
        Ok(()) => rounds_status(is_running, first_fault(cluster, last.len() as u8)),
        Err(Failed) => Status::WriteFault,
    }
}

/// Loads cores that these feed, lets them make at most so many rounds, and reports them.
fn run_cores<S: Sink>(
    alloc: Global,
    units: &UnitSet,
    sink: &mut S,
    feeds: &[Option<u8>],
    taken: Cores,
    rounds: u32,
) -> Status
    requires rounds { rounds ≤ 2 ^ 20 }
    requires feeds { length feeds.now ≡ length taken.cores.items }
    requires load { CanLoadAll taken.cores.items (map (λ v. v.items) taken.memories.items) }
    ensures { let U = stated unit_meaning units.now in
        NetReports U feeds.now taken.cores.items (map (λ v. v.items) taken.memories.items) rounds
        (S.output sink.old) (S.output sink.new) result }
{
    let Cores { cores, memories } = taken;
    let Ok(mut last) = vec![in alloc; StepResult::Ran; cores.len()] else {
        return Status::NoMemory;
    };
    match Cluster::load(alloc, cores.as_slice(), feeds, memories, rounds) {
        Ok(mut cluster) => {
            let turns = last.as_mut_slice();
            make_rounds(units, sink, &mut cluster, cores.as_slice(), turns)
        }
        Err(_) => Status::NoMemory,
    }
}

/// Reads the cores that these feed, lets them make at most so many rounds, and reports them.
fn net_of_links<F: Files, S: Sink>(
    alloc: Global,
    units: &UnitSet,
    files: &mut F,
    sink: &mut S,
    request: &NetRequest<'_>,
    feeds: &[Option<u8>],
) -> Status
    requires { length feeds.now ≡ cores_in (length request.now.names.now) }
    ensures { let U = stated unit_meaning units.now in
        let names = map (λ w. string_bytes w) request.now.names.now in
        CoresReport U feeds.now request.now.rounds names
        (F.world files.old) (F.world files.new) (S.output sink.old) (S.output sink.new) result }
{
    let count = (request.names.len() / FILES) as u8;
    match core_files(alloc, units, files, request.names, count) {
        Ok(taken) => run_cores(alloc, units, sink, feeds, taken, request.rounds),
        Err(status) => status,
    }
}

/// Reads the links of the file `links` and the files of the cores, and lets the cores make at most so
/// many rounds. It outputs of each core its number, the words that it has output, and how its last
/// turn ended.
pub fn run_net<F: Files, S: Sink>(
    alloc: Global,
    units: &UnitSet,
    files: &mut F,
    sink: &mut S,
    request: &NetRequest<'_>,
) -> Status
    ensures { let names = map (λ w. string_bytes w) request.now.names.now in
        Nets (stated unit_meaning units.now) request.now.rounds request.now.links.now names
        (F.world files.old) (F.world files.new) (S.output sink.old) (S.output sink.new) result }
{
    let count = (request.names.len() / FILES) as u8;
    match links_file(alloc, files, request.links, count) {
        Ok(feeds) => net_of_links(alloc, units, files, sink, request, feeds.as_slice()),
        Err(status) => status,
    }
}
