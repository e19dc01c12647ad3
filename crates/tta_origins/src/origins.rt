//! All that is told of where code comes from.

ghost use Rattle.std.specs.Prelude.{◌≡◌, ◌++◌, IfOk, OnOk};
ghost use Rattle.tta_ops.specs.Set.{stated};
ghost use Rattle.tta_link.specs.Linked.{starts_from};
ghost use Rattle.tta_stages.specs.Stages.{AreStages};
ghost use Rattle.tta_stages.specs.Text.{homes_in};
ghost use Rattle.tta_origins.specs.Statement.{origins_from, origins_text};

use crate::blocks::{Ranges, push_origins};
use crate::variables::Variables;
use std::alloc::{AllocError, Global};
use tta_arch::Machine;
use tta_block_profile::Compiled;
use tta_connect::Choice;
use tta_stages::block_starts;

/// The registers of the machine that are home registers.
fn homes_in(choice: &Option<Choice>) -> &[(u8, u8)]
    ensures { result.now ≡ homes_in choice.now }
{
    match choice {
        Some(c) => c.homes.as_slice(),
        None => &[],
    }
}

/// The address at which the code of each block begins, and at last the one where the code ends.
fn starts_of(alloc: Global, on: &Compiled<'_>) -> Result<Vec<u32>, AllocError>
    requires { AreStages (stated unit_meaning on.now.units.now) on.now.m.now on.now.p.now
        on.now.stages.now }
    ensures { IfOk result (λ v. v.items
        ≡ starts_from 0 on.now.stages.now.planned.placed.items) }
{
    on.m.rules();
    block_starts(alloc, on.stages.planned.placed.as_slice())
}

/// Puts all that is told, where the code of the blocks begins at these addresses.
#[tactic(auto, unfolding(crate::specs::Statement::origins_from))]
fn push_from(out: &mut Vec<u8>, on: &Compiled<'_>, starts: &[u32]) -> Result<(), AllocError>
    ensures { OnOk result (out.new.items ≡ out.old.items
        ++ origins_from on.now.m.now on.now.p.now on.now.stages.now starts.now) }
{
    let of = Variables {
        m: on.m,
        homes: homes_in(&on.stages.choice),
        p: on.p,
        lowered: &on.stages.lowered,
    };
    let ranges = Ranges {
        starts,
        placed: on.stages.planned.placed.as_slice(),
    };
    push_origins(out, &of, &ranges, on.stages.lowered.parts.as_slice())
}

/// What is told of where the code of a program comes from, as text: each block of code with the lines that
/// it stands for and the variables that are live in it, each with its home. It fails only where there is no
/// memory.
pub fn tell_origins(alloc: Global, on: &Compiled<'_>) -> Result<Vec<u8>, AllocError>
    requires { AreStages (stated unit_meaning on.now.units.now) on.now.m.now on.now.p.now
        on.now.stages.now }
    ensures { IfOk result (λ v. v.items
        ≡ origins_text on.now.m.now on.now.p.now on.now.stages.now) }
{
    let starts = starts_of(alloc, on)?;
    let mut out = Vec::new(alloc);
    push_from(&mut out, on, starts.as_slice())?;
    Ok(out)
}
