//! The dump of a run.

ghost use Rattle.std.specs.Prelude.{◌≡◌, ◌+◌, ◌<◌, ◌≤◌, ◌^◌, [], IfOk};
ghost use Rattle.tta_ops.specs.Set.{stated};
ghost use Rattle.tta_code.specs.Cycle.{State};
ghost use Rattle.tta_sim.specs.Held.{Stands, IsRunOf};
ghost use Rattle.tta_waves.specs.Statement.{limited, waves_of};

use crate::cycling::{Dump, push_states};
use crate::declare::push_header;
use crate::signals::signals_of;
use std::alloc::{AllocError, Global};
use tta_places::Row;
use tta_profile::Basis;
use tta_sim::Sim;

/// How many cycles a dump has at most.
const MOST_CYCLES: u64 = 65_536;

/// How many cycles a dump has where so many are asked for.
fn limited(bound: u64) -> u64
    ensures is { result ≡ limited bound }
    ensures within { result ≤ bound }
{
    if bound < MOST_CYCLES {
        bound
    } else {
        MOST_CYCLES
    }
}

/// Carries out at most so many cycles of a run from its start, and gives the dump of them, in the form
/// that IEEE 1364 names a value change dump. It has no more than 65,536 cycles, whatever is asked for. It
/// fails only where there is no memory.
#[tactic(auto, unfolding(crate::specs::Statement::waves_of))]
pub fn waves(
    alloc: Global,
    basis: &Basis<'_>,
    sim: &mut Sim,
    input: &[u32],
    bound: u64,
) -> Result<Vec<u8>, AllocError>
    requires loaded { IsRunOf basis.now.m.now basis.now.code.now sim.old }
    requires few { sim.old.cycle + bound < 2 ^ 62 }
    ensures { let on = basis.now in let U = stated unit_meaning on.units.now in
        (s : State) → Stands sim.old s → s.written ≡ [] → s.rest ≡ input.now
        → IfOk result (λ v. v.items ≡ waves_of U on.m.now on.code.now s bound) }
{
    let signals = signals_of(alloc, basis.m)?;
    let mut dump = Dump {
        out: Vec::new(alloc),
        signals,
        row: Row::unset(alloc)?,
        before: Vec::new(alloc),
        carried: Vec::new(alloc),
    };
    push_header(&mut dump.out, basis.m, dump.signals.as_slice())?;
    push_states(alloc, &mut dump, sim, basis, input, limited(bound))?;
    Ok(dump.out)
}
