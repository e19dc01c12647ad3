//! Code for machines that keep all rules of coverage.

ghost use Rattle.std.specs.Prelude.{◌≡◌, false, None, IfOk, IfErr};
ghost use Rattle.tta_ops.specs.Set.{stated};
ghost use Rattle.tta_arch.specs.Over.{StandsOver};
ghost use Rattle.tta_connect.specs.Coverage.{failed_rule};
ghost use Rattle.tta_compiler_laws.specs.Direct.{is_direct};
ghost use Rattle.tta_build.specs.Value.{gathered, IsAssembled, IsCompiled};
ghost use Rattle.tta_build.specs.Parts.{IsCodeFor};
ghost use Rattle.tta_build.specs.Statement.{HasCause};

use crate::error::BuildError;
use crate::keeping::beside;
use crate::linking::link_placed;
use crate::needs::unoffered;
use crate::placed_program::{Homed, homed_best};
use crate::register::{Analysed, Lowered, analyse};
use crate::value::{Assembled, Compiled};
use std::alloc::Global;
use tta_code::Code;
use tta_connect::{BuildTarget, Choice, CoverError, TargetMachine, cover};
use tta_ops::UnitSet;
use tta_program::Program;

/// What is made of a program, part by part.
fn gathered(known: Analysed, homed: Homed, code: Code) -> Assembled
    ensures { result ≡ gathered known homed code }
{
    let Homed { homes, listed } = homed;
    Assembled {
        lowered: Lowered {
            known,
            homes,
            code: listed.code,
        },
        planned: listed.planned,
        code,
    }
}

/// What is made of a program for what is chosen on a machine.
fn assembled(
    alloc: Global,
    on: &BuildTarget<'_>,
    p: &Program,
    units: &UnitSet,
) -> Result<Assembled, BuildError>
    requires over { StandsOver (stated unit_meaning units.now) on.now.joined.machine.now }
    requires other { is_direct on.now.joined.machine.now p.now ≡ false }
    requires kept { failed_rule on.now.joined.machine.now ≡ None }
    ensures value { let U = stated unit_meaning units.now in
        IfOk result (λ r. IsAssembled U on.now.joined.machine.now on.now.choice.now p.now r) }
    ensures code { let U = stated unit_meaning units.now in
        IfOk result (λ r. IsCodeFor U on.now.joined.machine.now p.now r.code) }
    ensures cause { let U = stated unit_meaning units.now in
        IfErr result (λ e. HasCause U on.now.joined.machine.now p.now e) }
{
    on.joined.machine.rules();
    p.rules();
    if let Some(line) = unoffered(on.joined.machine, on.choice, p, units) {
        return Err(BuildError::NoUnit { line });
    }
    let known = analyse(alloc, p)?;
    let homed = homed_best(alloc, on, p, units, &known);
    let (known, homed) = beside(known, homed)?;
    let code = link_placed(
        alloc,
        homed.listed.planned.placed.as_slice(),
        on.joined.machine,
    )?;
    Ok(gathered(known, homed, code))
}

/// What the compiler makes of a program that is no direct pair with the machine.
pub fn compile_covered(
    alloc: Global,
    on: &TargetMachine<'_>,
    p: &Program,
    units: &UnitSet,
) -> Result<Compiled, BuildError>
    requires over { StandsOver (stated unit_meaning units.now) on.now.machine.now }
    requires other { is_direct on.now.machine.now p.now ≡ false }
    ensures value { let U = stated unit_meaning units.now in
        IfOk result (λ r. IsCompiled U on.now.machine.now p.now r) }
    ensures code { let U = stated unit_meaning units.now in
        IfOk result (λ r. IsCodeFor U on.now.machine.now p.now r.code) }
    ensures cause { let U = stated unit_meaning units.now in
        IfErr result (λ e. HasCause U on.now.machine.now p.now e) }
{
    match cover(alloc, on.machine) {
        Ok(choice) => {
            let covered = BuildTarget {
                joined: *on,
                choice: &choice,
            };
            let made = assembled(alloc, &covered, p, units);
            let (choice, made) = beside(choice, made)?;
            let Assembled {
                lowered,
                planned,
                code,
            } = made;
            Ok(Compiled {
                choice: Some(choice),
                lowered,
                planned,
                code,
            })
        }
        Err(CoverError::Rule(rule)) => Err(BuildError::NotCovered { rule }),
        Err(CoverError::NoMemory) => Err(BuildError::NoMemory),
    }
}
