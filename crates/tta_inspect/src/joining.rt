//! The command `rtl net`: the circuits of cores that are joined by queues.

ghost use Rattle.std.specs.Prelude.{◌≡◌, ◌≤◌, length, map};
ghost use Rattle.std.specs.String.{string_bytes};
ghost use Rattle.tta_ops.specs.Set.{stated};
ghost use Rattle.tta_load.specs.Held.{MadeEnds, no_memory};
ghost use Rattle.tta_net.specs.Loaded.{CanLoadAll};
ghost use Rattle.tta_net_command.specs.CoreFiles.{cores_in};
ghost use Rattle.tta_inspect.specs.Depths as d;
ghost use Rattle.tta_inspect.specs.Joining.{IsNetText, ShowsCores, ShowsNet};

use crate::depths::depths_in;
use crate::names::NetRequest;
use std::alloc::Global;
use tta_load::{Status, put_made};
use tta_net_command::{Cores, core_files, links_file};
use tta_netlist::{Net, write_net};
use tta_ops::UnitSet;
use tta_ports::{Files, Sink};

/// The text of cores that these feed, with queues of as many words as a word says.
fn text_of_cores(
    alloc: Global,
    units: &UnitSet,
    feeds: &[Option<u8>],
    depths: &str,
    count: u8,
    taken: Cores,
) -> Result<Vec<u8>, Status>
    requires few { count ≤ 8 }
    requires feeds { length feeds.now ≤ 8 }
    requires load { CanLoadAll taken.cores.items (map (λ v. v.items) taken.memories.items) }
    ensures { let U = stated unit_meaning units.now in
        MadeEnds (IsNetText U taken.cores.items (map (λ v. v.items) taken.memories.items)
        feeds.now (d.depths_in count depths.now)) no_memory (λ v. v.items) result }
{
    let Cores { cores, memories } = taken;
    let Ok(depths) = depths_in(alloc, count, depths) else {
        return Err(Status::NoMemory);
    };
    let net = Net {
        units,
        feeds,
        depths: depths.as_slice(),
    };
    match write_net(alloc, &net, cores, memories.as_slice()) {
        Ok(text) => Ok(text),
        Err(_) => Err(Status::NoMemory),
    }
}

/// Puts the circuits of the cores of a net that these feed.
fn put_cores<F: Files, S: Sink>(
    alloc: Global,
    units: &UnitSet,
    files: &mut F,
    sink: &mut S,
    request: &NetRequest<'_>,
    feeds: &[Option<u8>],
) -> Status
    requires { length feeds.now ≡ cores_in (length request.now.names.now) }
    ensures { let U = stated unit_meaning units.now in
        let names = map (λ w. string_bytes w) request.now.names.now in
        ShowsCores U request.now.depths.now names feeds.now
        (F.world files.old) (F.world files.new) (S.output sink.old) (S.output sink.new) result }
{
    let count = (request.names.len() / 3) as u8;
    match core_files(alloc, units, files, request.names, count) {
        Ok(taken) => {
            let made = text_of_cores(alloc, units, feeds, request.depths, count, taken);
            put_made(sink, made)
        }
        Err(status) => status,
    }
}

/// Puts the circuits of the cores of a net, joined by the links of the file that word 2 names; word 3 and
/// those after it name the cores' files, where the words are counted from `net` on.
pub fn put_net<F: Files, S: Sink>(
    alloc: Global,
    units: &UnitSet,
    files: &mut F,
    sink: &mut S,
    request: &NetRequest<'_>,
) -> Status
    ensures { let names = map (λ w. string_bytes w) request.now.names.now in
        ShowsNet (stated unit_meaning units.now) request.now.depths.now request.now.links.now names
        (F.world files.old) (F.world files.new) (S.output sink.old) (S.output sink.new) result }
{
    let count = (request.names.len() / 3) as u8;
    match links_file(alloc, files, request.links, count) {
        Ok(feeds) => put_cores(alloc, units, files, sink, request, feeds.as_slice()),
        Err(status) => status,
    }
}
