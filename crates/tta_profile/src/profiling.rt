//! The profile of a run.

ghost use Rattle.std.specs.Prelude.{◌≡◌, ◌+◌, ◌<◌, ◌≤◌, ◌^◌, [], length, IfOk};
ghost use Rattle.tta_ops.specs.Set.{stated};
ghost use Rattle.tta_code.specs.Cycle.{State, next as next_state};
ghost use Rattle.tta_sim.specs.Held.{Stands, IsRunOf};
ghost use Rattle.tta_profile.specs.Counts.{AreCounts};
ghost use Rattle.tta_profile.specs.Outside.{AreOutside};
ghost use Rattle.tta_profile.specs.Statement.{IsProfile};

use crate::counting::{Basis, count_cycles};
use crate::counts::Counts;
use crate::following::unset;
use crate::report::tell_counts;
use std::alloc::{AllocError, Global};
use tta_sim::Sim;

/// How many instructions code has.
fn count_words(sim: &Sim, basis: &Basis<'_>) -> usize
    requires { IsRunOf basis.now.m.now basis.now.code.now sim.now }
    ensures count { result ≡ length basis.now.code.now.words }
    ensures few { result ≤ 65536 }
{
    let code = basis.code;
    code.words.len()
}

/// Carries out at most so many cycles of a run, and counts them. It fails only where there is no
/// memory.
pub fn count_run(
    alloc: Global,
    basis: &Basis<'_>,
    sim: &mut Sim,
    input: &[u32],
    bound: u64,
) -> Result<Counts, AllocError>
    requires loaded { IsRunOf basis.now.m.now basis.now.code.now sim.old }
    requires few { sim.old.cycle + bound < 2 ^ 62 }
    ensures size { IfOk result (λ c. length c.executed ≡ length basis.now.code.now.words) }
    ensures counts { let on = basis.now in
        let step = next_state (stated unit_meaning on.units.now) on.m.now on.code.now in
        (s : State) → Stands sim.old s → s.rest ≡ input.now
        → IfOk result (λ c. AreCounts step on.code.now.words s bound c) }
    ensures outside { let on = basis.now in
        let step = next_state (stated unit_meaning on.units.now) on.m.now on.code.now in
        (s : State) → Stands sim.old s → s.rest ≡ input.now → s.written ≡ []
        → IfOk result (λ c. AreOutside step on.m.now on.code.now.words s bound c) }
{
    let mut counts = Counts::new(alloc, count_words(&*sim, basis))?;
    let mut followed = unset(alloc)?;
    count_cycles(&mut followed, sim, &mut counts, basis, input, bound)?;
    Ok(counts)
}

/// Carries out at most so many cycles of a run, and tells where they go, as text: how many there were,
/// how many moves each bus carried, how many operations each unit started, and the instructions that
/// were carried out, the hottest first, each with the moves that its guards stopped. It fails only
/// where there is no memory.
pub fn profile(
    alloc: Global,
    basis: &Basis<'_>,
    sim: &mut Sim,
    input: &[u32],
    bound: u64,
) -> Result<Vec<u8>, AllocError>
    requires loaded { IsRunOf basis.now.m.now basis.now.code.now sim.old }
    requires few { sim.old.cycle + bound < 2 ^ 62 }
    ensures { let on = basis.now in
        (s : State) → Stands sim.old s → s.rest ≡ input.now
        → IfOk result (λ v. IsProfile (stated unit_meaning on.units.now) on.m.now on.code.now
        s bound v.items) }
{
    let counts = count_run(alloc, basis, sim, input, bound)?;
    tell_counts(alloc, basis.m, basis.units, basis.code, &counts)
}
