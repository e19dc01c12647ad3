//! The command `build`: the code of a program, as it stands or converted, as the image of a machine.

ghost use Rattle.std.specs.Prelude.{◌≡◌, None};
ghost use Rattle.tta_ops.specs.Set.{stated};
ghost use Rattle.tta_arch.specs.Over as machines;
ghost use Rattle.tta_program.specs.Over as programs;
ghost use Rattle.tta_program.specs.Program.{first_outside};
ghost use Rattle.tta_load.specs.Held.{MadeEnds};
ghost use Rattle.tta_tool.specs.Build.{Builds, IsCauseOf, IsImageOf, ending_of};

use crate::names::BuildRequest;
use std::alloc::Global;
use tta_build::{BuildError, build_with};
use tta_load::{ProgramPair, Status, image_of_whole, program_pair, write_made};
use tta_ops::UnitSet;
use tta_ports::Files;

/// The ending that says why no code is built.
pub fn ending_of(error: BuildError) -> Status
    ensures { result ≡ ending_of error }
{
    match error {
        BuildError::NotCovered { rule } => Status::NotCovered { rule },
        BuildError::NoUnit { line } => Status::NoUnit { line },
        BuildError::FrameFull { need, have } => Status::FrameFull { need, have },
        BuildError::CodeFull { words, have } => Status::CodeFull { words, have },
        BuildError::NoMemory => Status::NoMemory,
    }
}

/// The image of a program, as it stands or converted, for a machine, with the digest of the machine's
/// text.
fn image_of_pair(
    alloc: Global,
    units: &UnitSet,
    pair: &ProgramPair,
    converts: bool,
) -> Result<Vec<u8>, Status>
    requires machine { machines.StandsOver (stated unit_meaning units.now) pair.now.file.machine }
    requires program { programs.StandsOver (stated unit_meaning units.now) pair.now.program }
    requires inside { first_outside pair.now.file.machine.data_words pair.now.program.init ≡ None }
    ensures { let U = stated unit_meaning units.now in
        MadeEnds (IsImageOf converts U pair.now.file pair.now.program)
        (IsCauseOf converts U pair.now.file.machine pair.now.program) (λ v. v.items) result }
{
    match build_with(alloc, &pair.file.machine, &pair.program, units, converts) {
        Ok(built) => image_of_whole(alloc, &pair.file, &built.whole),
        Err(error) => Err(ending_of(error)),
    }
}

/// Compiles the program of the second file, as it stands or converted, for the machine of the first,
/// and writes the image.
pub fn build_image<F: Files>(
    alloc: Global,
    units: &UnitSet,
    files: &mut F,
    request: &BuildRequest<'_>,
) -> Status
    ensures { Builds request.now.converts (stated unit_meaning units.now)
        request.now.names.machine.now request.now.names.second.now request.now.names.out.now
        (F.world files.old) (F.world files.new) result }
{
    let BuildRequest { names, converts } = *request;
    match program_pair(alloc, units, files, names.machine, names.second) {
        Ok(pair) => {
            let made = image_of_pair(alloc, units, &pair, converts);
            write_made(files, names.out, made)
        }
        Err(status) => status,
    }
}
