//! The command `cost`: what the circuit of a machine is made of, with the code of an image, or with the
//! code that is built of a program.

ghost use Rattle.std.specs.Prelude.{◌≡◌, None, IfOk};
ghost use Rattle.tta_ops.specs.Set.{stated};
ghost use Rattle.tta_arch.specs.Over as machines;
ghost use Rattle.tta_program.specs.Over as programs;
ghost use Rattle.tta_program.specs.Program.{first_outside};
ghost use Rattle.tta_code.specs.Legal.{IsLegalWhole};
ghost use Rattle.tta_load.specs.Held.{MadeEnds, no_memory};
ghost use Rattle.tta_inspect.specs.Circuits.{Suits};
ghost use Rattle.tta_inspect.specs.Costs.{IsBuiltCost, IsCostText, IsWholeCost, ShowsCost};
ghost use Rattle.tta_inspect.specs.Runs.{Lacks};
ghost use Rattle.tta_inspect.specs.Stages.{IsCauseOf};
ghost use Rattle.tta_inspect.specs.Views.{machine_view};
ghost use Rattle.tta_inspect.specs.declared.view.View.TheVariants as view;

use crate::names::CostRequest;
use crate::staging::ending_of;
use crate::subject::{Subject, SubjectPair, subject_pair};
use std::alloc::{AllocError, Global};
use tta_build::build;
use tta_code::Whole;
use tta_cost::{tell_code, tell_machine};
use tta_load::{MachineFile, Status, put_made};
use tta_ops::UnitSet;
use tta_ports::{Files, Sink};
use tta_program::Program;

/// What the circuit of a machine without code is made of.
pub fn tell_cost(alloc: Global, units: &UnitSet, file: &MachineFile) -> Result<Vec<u8>, AllocError>
    ensures { let U = stated unit_meaning units.now in
        IfOk result (λ v. v.items ≡ machine_view U view.Cost file.now) }
{
    tell_machine(alloc, &file.machine, units)
}

/// What the circuit of a machine with code and data is made of.
fn text_of_whole(
    alloc: Global,
    units: &UnitSet,
    file: &MachineFile,
    whole: &Whole,
) -> Result<Vec<u8>, Status>
    requires { IsLegalWhole file.now.machine whole.now }
    ensures { let U = stated unit_meaning units.now in
        MadeEnds (IsWholeCost U file.now whole.now) no_memory (λ v. v.items) result }
{
    match tell_code(alloc, &file.machine, units, whole) {
        Ok(text) => Ok(text),
        Err(_) => Err(Status::NoMemory),
    }
}

/// What the circuit of a machine is made of, with the code that is built of a program, and its data.
fn text_of_built(
    alloc: Global,
    units: &UnitSet,
    file: &MachineFile,
    program: &Program,
) -> Result<Vec<u8>, Status>
    requires machine { machines.StandsOver (stated unit_meaning units.now) file.now.machine }
    requires program { programs.StandsOver (stated unit_meaning units.now) program.now }
    requires inside { first_outside file.now.machine.data_words program.now.init ≡ None }
    ensures { let U = stated unit_meaning units.now in
        MadeEnds (IsBuiltCost U file.now program.now) (IsCauseOf U file.now.machine program.now)
        (λ v. v.items) result }
{
    match build(alloc, &file.machine, program, units) {
        Ok(built) => text_of_whole(alloc, units, file, &built.whole),
        Err(error) => Err(ending_of(error, units, &file.machine, program)),
    }
}

/// What the circuit of a machine is made of, with what was read for it.
fn text_of_cost(alloc: Global, units: &UnitSet, pair: &SubjectPair) -> Result<Vec<u8>, Status>
    requires machine { machines.StandsOver (stated unit_meaning units.now) pair.now.file.machine }
    requires suits { Suits (stated unit_meaning units.now) pair.now.file.machine pair.now.subject }
    ensures { let U = stated unit_meaning units.now in
        MadeEnds (IsCostText U pair.now.file pair.now.subject)
        (Lacks U pair.now.file pair.now.subject) (λ v. v.items) result }
{
    let file = &pair.file;
    match &pair.subject {
        Subject::Code(whole) => text_of_whole(alloc, units, file, whole),
        Subject::Program(program) => text_of_built(alloc, units, file, program),
    }
}

/// Puts what the circuit of the machine of the file that word 1 names is made of, with the code of the image,
/// or of the program, of the file that word 2 names.
pub fn put_cost<F: Files, S: Sink>(
    alloc: Global,
    units: &UnitSet,
    files: &mut F,
    sink: &mut S,
    names: &CostRequest<'_>,
) -> Status
    ensures { ShowsCost (stated unit_meaning units.now) names.now.machine.now names.now.subject.now
        (F.world files.old) (F.world files.new) (S.output sink.old) (S.output sink.new) result }
{
    match subject_pair(alloc, units, files, names.machine, names.subject) {
        Ok(pair) => {
            let made = text_of_cost(alloc, units, &pair);
            put_made(sink, made)
        }
        Err(status) => status,
    }
}
