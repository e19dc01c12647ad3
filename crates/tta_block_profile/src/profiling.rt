//! The profile of a run of compiled code, by the blocks of its program.

ghost use Rattle.std.specs.Prelude.{◌≡◌, ◌+◌, ◌<◌, ◌^◌, length, IfOk};
ghost use Rattle.tta_ops.specs.Set.{stated};
ghost use Rattle.tta_code.specs.Cycle.{State};
ghost use Rattle.tta_code.specs.Legal.{IsLegalCode};
ghost use Rattle.tta_link.specs.Linked.{starts_from};
ghost use Rattle.tta_sim.specs.Held.{Stands, IsRunOf};
ghost use Rattle.tta_stages.specs.Stages.{AreStages};
ghost use Rattle.tta_block_profile.specs.Report.{IsBlockReport};
ghost use Rattle.tta_block_profile.specs.Statement.{IsBlockProfile};

use crate::blocks::Blocks;
use crate::costly::costliest;
use crate::report::push_told;
use std::alloc::{AllocError, Global};
use tta_arch::Machine;
use tta_ops::UnitSet;
use tta_profile::{Basis, Counts, Profiled, count_run, cycles_sum, words_of};
use tta_program::Program;
use tta_sim::Sim;
use tta_stages::{Stages, block_starts};

/// A program, and what it became on the way to code for a machine.
#[derive(Clone, Copy)]
pub struct Compiled<'a> {
    pub m: &'a Machine,
    pub p: &'a Program,
    pub units: &'a UnitSet,
    pub stages: &'a Stages,
}

/// What is told of the counts of a run by its blocks, whose code begins at these addresses.
fn tell_from(
    alloc: Global,
    on: &Compiled<'_>,
    counts: &Counts,
    starts: &[u32],
) -> Result<Vec<u8>, AllocError>
    requires legal { IsLegalCode on.now.m.now on.now.stages.now.code }
    requires size { length counts.now.executed ≡ length on.now.stages.now.code.words }
    ensures { IfOk result (λ v. IsBlockReport on.now.m.now on.now.p.now on.now.stages.now
        starts.now counts.now v.items) }
{
    let profiled = Profiled {
        m: on.m,
        words: words_of(on.m, &on.stages.code),
        counts,
        whole: cycles_sum(counts.executed()),
    };
    let blocks = Blocks {
        program: on.p,
        parts: on.stages.lowered.parts.as_slice(),
        starts,
        placed: on.stages.planned.placed.as_slice(),
    };
    let order = costliest(alloc, counts, &blocks)?;
    let mut out = Vec::new(alloc);
    push_told(&mut out, &profiled, &blocks, order.as_slice())?;
    Ok(out)
}

/// The address at which the code of each block begins, and at last the one where the code ends. It
/// fails only where there is no memory.
fn starts_of(alloc: Global, on: &Compiled<'_>) -> Result<Vec<u32>, AllocError>
    requires { AreStages (stated unit_meaning on.now.units.now) on.now.m.now on.now.p.now
        on.now.stages.now }
    ensures starts { IfOk result (λ v. v.items
        ≡ starts_from 0 on.now.stages.now.planned.placed.items) }
    ensures legal { IsLegalCode on.now.m.now on.now.stages.now.code }
{
    on.m.rules();
    block_starts(alloc, on.stages.planned.placed.as_slice())
}

/// What is told of the counts of a run by its blocks.
fn tell_blocks(alloc: Global, on: &Compiled<'_>, counts: &Counts) -> Result<Vec<u8>, AllocError>
    requires stages { AreStages (stated unit_meaning on.now.units.now) on.now.m.now on.now.p.now
        on.now.stages.now }
    requires size { length counts.now.executed ≡ length on.now.stages.now.code.words }
    ensures { IfOk result (λ v. IsBlockReport on.now.m.now on.now.p.now on.now.stages.now
        (starts_from 0 on.now.stages.now.planned.placed.items) counts.now v.items) }
{
    let starts = starts_of(alloc, on)?;
    tell_from(alloc, on, counts, starts.as_slice())
}

/// Carries out at most so many cycles of a run of compiled code, and tells where they go, as text: how
/// many there were, how many moves each bus carried, how many operations each unit started, and the
/// blocks in which cycles were spent, the costliest first, each with its lines of the program and its
/// length. It fails only where there is no memory.
pub fn profile_blocks(
    alloc: Global,
    on: &Compiled<'_>,
    sim: &mut Sim,
    input: &[u32],
    bound: u64,
) -> Result<Vec<u8>, AllocError>
    requires loaded { IsRunOf on.now.m.now on.now.stages.now.code sim.old }
    requires few { sim.old.cycle + bound < 2 ^ 62 }
    requires stages { AreStages (stated unit_meaning on.now.units.now) on.now.m.now on.now.p.now
        on.now.stages.now }
    ensures { let U = stated unit_meaning on.now.units.now in
        (s : State) → Stands sim.old s → s.rest ≡ input.now
        → IfOk result (λ v. IsBlockProfile U on.now.m.now on.now.p.now on.now.stages.now
        s bound v.items) }
{
    let basis = Basis {
        m: on.m,
        code: &on.stages.code,
        units: on.units,
    };
    let counts = count_run(alloc, &basis, sim, input, bound)?;
    tell_blocks(alloc, on, &counts)
}
