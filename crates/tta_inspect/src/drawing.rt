//! The command `picture` of code: that of an image, or that which is built of a program.

ghost use Rattle.std.specs.Prelude.{◌≡◌, IfOk};
ghost use Rattle.tta_ops.specs.Set.{stated};
ghost use Rattle.tta_arch.specs.Over as machines;
ghost use Rattle.tta_program.specs.Over as programs;
ghost use Rattle.tta_code.specs.Legal.{IsLegalCode};
ghost use Rattle.tta_draw.specs.CodePicture.{picture_of_code};
ghost use Rattle.tta_stages.specs.Stages.{AreStages};
ghost use Rattle.tta_load.specs.Held.{MadeEnds, no_memory};
ghost use Rattle.tta_inspect.specs.Pictures.{IsBuiltPicture, IsPictureText, IsWholePicture};
ghost use Rattle.tta_inspect.specs.Pictures.{ShowsPicture};
ghost use Rattle.tta_inspect.specs.Remarks.{remarks_of};
ghost use Rattle.tta_inspect.specs.Runs.{Lacks};
ghost use Rattle.tta_inspect.specs.Subjects.{Suits};
ghost use Rattle.tta_inspect.specs.Stages.{IsCauseOf};

use crate::names::PictureRequest;
use crate::remarking::remarks_of;
use crate::staging::ending_of;
use crate::subject::{Subject, SubjectPair, subject_pair};
use std::alloc::{AllocError, Global};
use tta_block_profile::Compiled;
use tta_code::Whole;
use tta_draw::draw_code;
use tta_load::{MachineFile, Status, put_made};
use tta_ops::UnitSet;
use tta_ports::{Files, Sink};
use tta_program::Program;
use tta_stages::stages_of;

/// The picture of code for a machine.
fn text_of_whole(
    alloc: Global,
    units: &UnitSet,
    file: &MachineFile,
    whole: &Whole,
) -> Result<Vec<u8>, Status>
    requires { IsLegalCode file.now.machine whole.now.code }
    ensures { let U = stated unit_meaning units.now in
        MadeEnds (IsWholePicture U file.now whole.now) no_memory (λ v. v.items) result }
{
    match draw_code(alloc, &file.machine, units, &whole.code, &[]) {
        Ok(text) => Ok(text),
        Err(_) => Err(Status::NoMemory),
    }
}

/// The picture of the code of a program, with its blocks and their lines beside it.
fn draw_compiled(alloc: Global, on: &Compiled<'_>) -> Result<Vec<u8>, AllocError>
    requires { AreStages (stated unit_meaning on.now.units.now) on.now.m.now on.now.p.now
        on.now.stages.now }
    ensures { let U = stated unit_meaning on.now.units.now in IfOk result (λ v. v.items
        ≡ picture_of_code U on.now.m.now on.now.stages.now.code
        (remarks_of on.now.p.now on.now.stages.now)) }
{
    let remarks = remarks_of(alloc, on)?;
    let text = draw_code(alloc, on.m, on.units, &on.stages.code, remarks.as_slice())?;
    Ok(text)
}

/// The picture of the code that is built of a program.
fn text_of_built(
    alloc: Global,
    units: &UnitSet,
    file: &MachineFile,
    program: &Program,
) -> Result<Vec<u8>, Status>
    requires machine { machines.StandsOver (stated unit_meaning units.now) file.now.machine }
    requires program { programs.StandsOver (stated unit_meaning units.now) program.now }
    ensures { let U = stated unit_meaning units.now in
        MadeEnds (IsBuiltPicture U file.now program.now) (IsCauseOf U file.now.machine program.now)
        (λ v. v.items) result }
{
    match stages_of(alloc, &file.machine, program, units) {
        Ok(stages) => {
            let on = Compiled {
                m: &file.machine,
                p: program,
                units,
                stages: &stages,
            };
            match draw_compiled(alloc, &on) {
                Ok(text) => Ok(text),
                Err(_) => Err(Status::NoMemory),
            }
        }
        Err(error) => Err(ending_of(error, units, &file.machine, program)),
    }
}

/// The picture of what was read for a machine.
fn text_of_picture(alloc: Global, units: &UnitSet, pair: &SubjectPair) -> Result<Vec<u8>, Status>
    requires machine { machines.StandsOver (stated unit_meaning units.now) pair.now.file.machine }
    requires suits { Suits (stated unit_meaning units.now) pair.now.file.machine pair.now.subject }
    ensures { let U = stated unit_meaning units.now in
        MadeEnds (IsPictureText U pair.now.file pair.now.subject)
        (Lacks U pair.now.file pair.now.subject) (λ v. v.items) result }
{
    let file = &pair.file;
    match &pair.subject {
        Subject::Code(whole) => text_of_whole(alloc, units, file, whole),
        Subject::Program(program) => text_of_built(alloc, units, file, program),
    }
}

/// Puts the picture of the code of the image, or of the program, of the file that word 2 names, for the
/// machine of the file that word 1 names.
pub fn put_picture<F: Files, S: Sink>(
    alloc: Global,
    units: &UnitSet,
    files: &mut F,
    sink: &mut S,
    names: &PictureRequest<'_>,
) -> Status
    ensures { let U = stated unit_meaning units.now in
        ShowsPicture U names.now.machine.now names.now.subject.now
        (F.world files.old) (F.world files.new) (S.output sink.old) (S.output sink.new) result }
{
    match subject_pair(alloc, units, files, names.machine, names.subject) {
        Ok(pair) => {
            let made = text_of_picture(alloc, units, &pair);
            put_made(sink, made)
        }
        Err(status) => status,
    }
}
