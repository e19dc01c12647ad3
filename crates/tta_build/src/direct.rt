//! Code for direct pairs.

ghost use Rattle.std.specs.Prelude.{◌≡◌, true, IfOk, IfErr};
ghost use Rattle.tta_ops.specs.Units.{Units};
ghost use Rattle.tta_arch.specs.Rules.{IsMachine};
ghost use Rattle.tta_program.specs.Rules.{IsProgram};
ghost use Rattle.tta_compiler_laws.specs.Direct.{is_direct};
ghost use Rattle.tta_build.specs.Lowered.{IsLoweredAs};
ghost use Rattle.tta_build.specs.Value.{AreDirectLists, IsDirectlyCompiled};
ghost use Rattle.tta_build.specs.Parts.{IsCodeFor};
ghost use Rattle.tta_build.specs.Statement.{HasCause};

use crate::best_candidate::Planned;
use crate::error::BuildError;
use crate::linking::link_placed;
use crate::placing::place_all;
use crate::register::{Lowered, lowered_in_turn};
use crate::value::Compiled;
use std::alloc::{AllocError, Global};
use tta_arch::Machine;
use tta_connect::TargetMachine;
use tta_lower::LowerError;
use tta_program::Program;
use tta_select::select_direct;

/// How many frame words a procedure without calls needs at the most. A direct pair is asked for
/// none, since its code names no slot.
const MOST_VARIABLES: u32 = 4096;

/// The program of a direct pair on the way to its list. It fails only where there is no memory.
fn direct_lowered(alloc: Global, m: &Machine, p: &Program) -> Result<Lowered, AllocError>
    requires program { IsProgram p.now }
    requires direct { is_direct m.now p.now ≡ true }
    ensures { IfOk result (λ r. IsLoweredAs p.now 0 4096 r) }
{
    match lowered_in_turn(alloc, p, 0, MOST_VARIABLES) {
        Ok(lowered) => Ok(lowered),
        Err(LowerError::FrameFull { .. }) => unreachable!(),
        Err(LowerError::NoMemory) => Err(AllocError),
    }
}

/// The one list of a direct pair, and its placement. It fails only where there is no memory.
fn direct_planned(
    alloc: Global,
    on: &TargetMachine<'_>,
    p: &Program,
    lowered: &Lowered,
) -> Result<Planned, AllocError>
    requires machine { IsMachine on.now.machine.now }
    requires program { IsProgram p.now }
    requires direct { is_direct on.now.machine.now p.now ≡ true }
    requires lowered { IsLoweredAs p.now 0 4096 lowered.now }
    ensures { IfOk result (λ r. AreDirectLists on.now.machine.now p.now r) }
{
    let selected = select_direct(alloc, &lowered.code, on.machine)?;
    let placed = place_all(alloc, selected.as_slice(), on)?;
    Ok(Planned {
        selected,
        trails: Vec::new(alloc),
        placed,
    })
}

/// What the compiler makes of a direct pair.
pub fn compile_direct(
    alloc: Global,
    on: &TargetMachine<'_>,
    p: &Program,
) -> Result<Compiled, BuildError>
    requires direct { is_direct on.now.machine.now p.now ≡ true }
    ensures value { let M = on.now.machine.now in
        IfOk result (λ r. IsDirectlyCompiled M p.now r) }
    ensures code { let M = on.now.machine.now in
        IfOk result (λ r. (u : Units) → IsCodeFor u M p.now r.code) }
    ensures cause { let M = on.now.machine.now in
        IfErr result (λ e. (u : Units) → HasCause u M p.now e) }
{
    on.machine.rules();
    p.rules();
    let lowered = direct_lowered(alloc, on.machine, p)?;
    let planned = direct_planned(alloc, on, p, &lowered)?;
    let code = link_placed(alloc, planned.placed.as_slice(), on.machine)?;
    Ok(Compiled {
        choice: None,
        lowered,
        planned,
        code,
    })
}
