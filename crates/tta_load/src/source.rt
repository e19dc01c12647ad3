//! The program of a command that has no machine.

ghost use Rattle.std.specs.Prelude.{◌≤◌, ◌^◌, length, IfOk};
ghost use Rattle.tta_ops.specs.Set.{stated};
ghost use Rattle.tta_program.specs.Over.{StandsOver};
ghost use Rattle.tta_tac.specs.Text.{ProgramText};
ghost use Rattle.tta_load.specs.Held.{TakesBytes, FileEnds};
ghost use Rattle.tta_load.specs.Sources.{RefusesSource};

use crate::reading::read_file;
use crate::status::Status;
use std::alloc::Global;
use tta_ops::UnitSet;
use tta_ports::Files;
use tta_tac::{Program, TacError, read_program};

/// The program of a text, wherever its data lie.
fn source_of(alloc: Global, text: &[u8], units: &UnitSet) -> Result<Program, Status>
    requires { length text.now ≤ 2 ^ 24 }
    ensures takes { let U = stated unit_meaning units.now in
        TakesBytes (ProgramText U) (RefusesSource U) text.now (λ p. p) result }
    ensures over { IfOk result (λ p. StandsOver (stated unit_meaning units.now) p) }
{
    match read_program(alloc, text, units) {
        Ok(program) => Ok(program),
        Err(TacError::Refused { line, code }) => Err(Status::BadProgram { line, code }),
        Err(TacError::NoMemory) => Err(Status::NoMemory),
    }
}

/// The program of the file that a word names, wherever its data lie.
pub fn source_file<F: Files>(
    alloc: Global,
    units: &UnitSet,
    files: &mut F,
    name: &str,
    word: u8,
) -> Result<Program, Status>
    ensures ends { let U = stated unit_meaning units.now in
        FileEnds (ProgramText U) (RefusesSource U) name.now word
        (F.world files.old) (F.world files.new) (λ p. p) result }
    ensures over { IfOk result (λ p. StandsOver (stated unit_meaning units.now) p) }
{
    let text = read_file(files, name, word)?;
    source_of(alloc, text.as_slice(), units)
}
