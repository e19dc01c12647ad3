//! What one can ask to see of a run.

ghost use Rattle.std.specs.Prelude.{◌≡◌, length};
ghost use Rattle.std.specs.List.{position};
ghost use Rattle.std.specs.Str.{bytes_eq};
ghost use Rattle.tta_code.specs.Cycle.{State};
ghost use Rattle.tta_sim.specs.Held.{Stands};
ghost use Rattle.tta_debug.specs.Commands.{plain_query};
ghost use Rattle.tta_debug.specs.Debugged as spec;

use crate::asked::Query;
use tta_arch::{File, Machine, Unit};
use tta_report::Reply;
use tta_sim::Sim;

/// The word of a place.
fn value(word: Option<u32>) -> Reply
    ensures { result ≡ spec.value word }
{
    match word {
        Some(word) => Reply::Value(word),
        None => Reply::Unset,
    }
}

/// How a run stands.
pub fn standing(sim: &Sim) -> Reply
    ensures { (s : State) → Stands sim.now s → result ≡ spec.standing s }
{
    let cycle = sim.cycles();
    if let Some(code) = sim.fault() {
        return Reply::Fault { code, cycle };
    }
    if sim.halted() {
        return Reply::Halted { cycle };
    }
    Reply::At {
        pc: sim.pc(),
        cycle,
    }
}

/// The place of the file of a name.
fn file_named(files: &[File], name: &[u8]) -> Option<usize>
    ensures { result ≡ position (λ f. bytes_eq f.name name.now) files.now }
{
    files.iter().position(|f| f.name.as_bytes() == name)
}

/// The place of the unit of a name.
fn unit_named(units: &[Unit], name: &[u8]) -> Option<usize>
    ensures { result ≡ position (λ u. bytes_eq u.name name.now) units.now }
{
    units.iter().position(|u| u.name.as_bytes() == name)
}

/// A register of a file.
fn register(sim: &Sim, m: &Machine, file: &[u8], index: u32) -> Option<Reply>
    ensures { (s : State) → Stands sim.now s → result ≡ spec.register m.now s file.now index }
{
    let files = m.files.as_slice();
    let k = file_named(files, file)?;
    if index < u32::from(files[k].size) {
        Some(value(sim.reg(k as u8, index as u8)))
    } else {
        None
    }
}

/// What the result port of a unit shows.
fn shown(sim: &Sim, m: &Machine, unit: &[u8]) -> Option<Reply>
    requires { length sim.now.shown ≡ length m.now.units }
    ensures { (s : State) → Stands sim.now s → result ≡ spec.shown m.now s unit.now }
{
    let units = m.units.as_slice();
    let k = unit_named(units, unit)?;
    if units[k].result.is_some() {
        Some(value(sim.port(k as u8)))
    } else {
        None
    }
}

/// What there is to see, where it is there.
pub fn seen(sim: &Sim, m: &Machine, query: &Query) -> Option<Reply>
    requires units { length sim.now.shown ≡ length m.now.units }
    requires memory { length sim.now.memory ≡ m.now.data_words }
    ensures { (s : State) → Stands sim.now s
        → result ≡ spec.seen m.now s (plain_query query.now) }
{
    match query {
        Query::Reg { file, index } => register(sim, m, file, *index),
        Query::Port { unit } => shown(sim, m, unit),
        Query::Mem { address } => {
            if *address < m.data_words {
                Some(Reply::Value(sim.mem(*address)))
            } else {
                None
            }
        }
        Query::Where => Some(standing(sim)),
    }
}
