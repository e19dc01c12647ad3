//! The command `stages`: what a program becomes on the way to code for a machine.

ghost use Rattle.std.specs.Prelude.{◌≡◌, IfOk};
ghost use Rattle.tta_ops.specs.Set.{stated};
ghost use Rattle.tta_arch.specs.Over as machines;
ghost use Rattle.tta_program.specs.Over as programs;
ghost use Rattle.tta_build.specs.Statement.{HasCause};
ghost use Rattle.tta_stages.specs.Stages.{AreStages};
ghost use Rattle.tta_stages.specs.Text.{stages_text};
ghost use Rattle.tta_load.specs.Held.{MadeEnds};
ghost use Rattle.tta_inspect.specs.Stages.{IsCauseOf, IsStagesOf, ShowsStages, view_of_stages};

use crate::names::StagesRequest;
use crate::view::StagesView;
use std::alloc::{AllocError, Global};
use tta_arch::Machine;
use tta_build::BuildError;
use tta_load::{ProgramPair, Status, program_pair, put_made};
use tta_ops::UnitSet;
use tta_pages::page_of_stages;
use tta_ports::{Files, Sink};
use tta_program::Program;
use tta_stages::{Stages, stages_of, tell_stages};

/// The ending that says why no code is built.
pub fn ending_of(error: BuildError, units: &UnitSet, machine: &Machine, program: &Program) -> Status
    requires { HasCause (stated unit_meaning units.now) machine.now program.now error }
    ensures { IsCauseOf (stated unit_meaning units.now) machine.now program.now result }
{
    match error {
        BuildError::NotCovered { rule } => Status::NotCovered { rule },
        BuildError::NoUnit { line } => Status::NoUnit { line },
        BuildError::FrameFull { need, have } => Status::FrameFull { need, have },
        BuildError::CodeFull { words, have } => Status::CodeFull { words, have },
        BuildError::NoMemory => Status::NoMemory,
    }
}

/// A view of what is told of stages.
fn viewed(alloc: Global, view: StagesView, told: Vec<u8>) -> Result<Vec<u8>, AllocError>
    ensures { IfOk result (λ v. v.items ≡ view_of_stages view told.items) }
{
    match view {
        StagesView::Lines => Ok(told),
        StagesView::Page => page_of_stages(alloc, told.as_slice()),
    }
}

/// A view of stages, which are those of a program on the way to code for a machine.
fn text_of_told(
    alloc: Global,
    units: &UnitSet,
    pair: &ProgramPair,
    view: StagesView,
    stages: &Stages,
) -> Result<Vec<u8>, AllocError>
    requires program { programs.StandsOver (stated unit_meaning units.now) pair.now.program }
    requires stages { AreStages (stated unit_meaning units.now) pair.now.file.machine
        pair.now.program stages.now }
    ensures { let U = stated unit_meaning units.now in IfOk result (λ v. v.items
        ≡ view_of_stages view (stages_text U pair.now.file.machine pair.now.program stages.now)) }
{
    let told = tell_stages(alloc, &pair.file.machine, &pair.program, units, stages)?;
    viewed(alloc, view, told)
}

/// The view that is asked for of the stages of a program on the way to code for a machine.
fn text_of_stages(
    alloc: Global,
    units: &UnitSet,
    pair: &ProgramPair,
    view: StagesView,
) -> Result<Vec<u8>, Status>
    requires machine { machines.StandsOver (stated unit_meaning units.now) pair.now.file.machine }
    requires program { programs.StandsOver (stated unit_meaning units.now) pair.now.program }
    ensures { let U = stated unit_meaning units.now in
        MadeEnds (IsStagesOf U view pair.now.file pair.now.program)
        (IsCauseOf U pair.now.file.machine pair.now.program) (λ v. v.items) result }
{
    match stages_of(alloc, &pair.file.machine, &pair.program, units) {
        Ok(stages) => {
            match text_of_told(alloc, units, pair, view, &stages) {
                Ok(text) => Ok(text),
                Err(_) => Err(Status::NoMemory),
            }
        }
        Err(error) => Err(ending_of(error, units, &pair.file.machine, &pair.program)),
    }
}

/// Puts the view that is asked for of the stages of the program of the file that word 2 names, on the
/// way to code for the machine of the file that word 1 names.
pub fn put_stages<F: Files, S: Sink>(
    alloc: Global,
    units: &UnitSet,
    files: &mut F,
    sink: &mut S,
    names: &StagesRequest<'_>,
) -> Status
    ensures { ShowsStages (stated unit_meaning units.now) names.now.view names.now.machine.now
        names.now.program.now
        (F.world files.old) (F.world files.new) (S.output sink.old) (S.output sink.new) result }
{
    match program_pair(alloc, units, files, names.machine, names.program) {
        Ok(pair) => {
            let made = text_of_stages(alloc, units, &pair, names.view);
            put_made(sink, made)
        }
        Err(status) => status,
    }
}
