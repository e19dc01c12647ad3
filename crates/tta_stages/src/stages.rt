//! The stages of a program on the way to code for a machine.

ghost use Rattle.std.specs.Prelude.{◌≡◌, IfOk, IfErr};
ghost use Rattle.tta_ops.specs.Set.{stated};
ghost use Rattle.tta_arch.specs.Over.{StandsOver};
ghost use Rattle.tta_program.specs.Rules.{IsProgram};
ghost use Rattle.tta_build.specs.Lowered.{IsAnalysed};
ghost use Rattle.tta_build.specs.Statement.{HasCause};
ghost use Rattle.tta_stages.specs.Stages.{staged, AreToldOf, AreStages};

use crate::lowered::{Lowered, parts_of};
use std::alloc::{AllocError, Global};
use tta_alloc::Intervals;
use tta_arch::Machine;
use tta_build::{BuildError, Compiled, Planned, beside, compile};
use tta_code::Code;
use tta_connect::Choice;
use tta_lower::Part;
use tta_ops::UnitSet;
use tta_program::Program;

/// A program on the way to code for a machine, stage by stage.
#[derive(Drop)]
pub struct Stages {
    /// What is chosen on the machine; nothing for a direct pair.
    pub choice: Option<Choice>,
    /// From the program to its register code.
    pub lowered: Lowered,
    /// From the selected lists to their placements.
    pub planned: Planned,
    /// The code of the placements, one after another.
    pub code: Code,
}

/// What the compiler makes of a program, with its intervals and parts.
fn with_places(value: Compiled, intervals: Intervals, parts: Vec<Part>) -> Stages
    ensures { result ≡ staged value intervals parts }
{
    let Compiled {
        choice,
        lowered,
        planned,
        code,
    } = value;
    Stages {
        choice,
        lowered: Lowered {
            flow: lowered.known.flow,
            live: lowered.known.live,
            intervals,
            homes: lowered.homes,
            parts,
            code: lowered.code,
        },
        planned,
        code,
    }
}

/// What the compiler makes of a program, with the intervals of its variables and with what its blocks
/// stand for. It fails only where there is no memory.
fn told(alloc: Global, p: &Program, value: Compiled) -> Result<Stages, AllocError>
    requires program { IsProgram p.now }
    requires known { IsAnalysed p.now value.lowered.known }
    ensures { IfOk result (λ s. AreToldOf p.now value s) }
{
    let known = &value.lowered.known;
    let intervals = Intervals::of(alloc, p, &known.flow, &known.live);
    let (value, intervals) = beside(value, intervals)?;
    let known = &value.lowered.known;
    let parts = parts_of(alloc, p, &known.flow, &known.live);
    let ((value, intervals), parts) = beside((value, intervals), parts)?;
    Ok(with_places(value, intervals, parts))
}

/// The stages of a program on the way to code for a machine, or why there is no code: the same causes
/// as those of `build`, in the same order.
pub fn stages_of(
    alloc: Global,
    m: &Machine,
    p: &Program,
    units: &UnitSet,
) -> Result<Stages, BuildError>
    requires { StandsOver (stated unit_meaning units.now) m.now }
    ensures stages { let U = stated unit_meaning units.now in
        IfOk result (λ r. AreStages U m.now p.now r) }
    ensures cause { let U = stated unit_meaning units.now in
        IfErr result (λ e. HasCause U m.now p.now e) }
{
    m.rules();
    p.rules();
    let value = compile(alloc, m, p, units)?;
    let stages = told(alloc, p, value)?;
    Ok(stages)
}
