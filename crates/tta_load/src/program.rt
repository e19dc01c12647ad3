//! The program of a command.

ghost use Rattle.std.specs.Prelude.{◌≡◌, ◌≤◌, ◌^◌, length, IfOk};
ghost use Rattle.tta_ops.specs.Set.{stated};
ghost use Rattle.tta_program.specs.Over.{StandsOver};
ghost use Rattle.tta_program.specs.Program.{first_outside};
ghost use Rattle.tta_load.specs.Held.{TakesBytes, FileEnds};
ghost use Rattle.tta_load.specs.Programs.{IsProgramIn, RefusesProgram};

use crate::reading::read_file;
use crate::status::Status;
use std::alloc::Global;
use tta_ops::UnitSet;
use tta_ports::Files;
use tta_tac::{DataLine, Program, TacError, read_program};

/// The line of the first datum whose address is not below a number.
fn first_outside(init: &[DataLine], words: u32) -> Option<u32>
    ensures { result ≡ first_outside words init.now }
{
    for datum in init {
        if datum.address >= words {
            return Some(datum.line);
        }
    }
    None
}

/// The program of a text, whose data lie in a space of so many words.
pub fn program_of(
    alloc: Global,
    text: &[u8],
    units: &UnitSet,
    space: u32,
) -> Result<Program, Status>
    requires { length text.now ≤ 2 ^ 24 }
    ensures takes { let U = stated unit_meaning units.now in
        TakesBytes (IsProgramIn U space) (RefusesProgram U space) text.now (λ p. p) result }
    ensures over { IfOk result (λ p. StandsOver (stated unit_meaning units.now) p) }
{
    match read_program(alloc, text, units) {
        Ok(program) => match first_outside(program.init.as_slice(), space) {
            None => Ok(program),
            Some(line) => Err(Status::DataRange { line, have: space }),
        },
        Err(TacError::Refused { line, code }) => Err(Status::BadProgram { line, code }),
        Err(TacError::NoMemory) => Err(Status::NoMemory),
    }
}

/// The program of the file that word 2 names, whose data lie in a space of so many words.
pub fn program_file<F: Files>(
    alloc: Global,
    units: &UnitSet,
    files: &mut F,
    name: &str,
    space: u32,
) -> Result<Program, Status>
    ensures ends { let U = stated unit_meaning units.now in
        FileEnds (IsProgramIn U space) (RefusesProgram U space) name.now 2
        (F.world files.old) (F.world files.new) (λ p. p) result }
    ensures over { IfOk result (λ p. StandsOver (stated unit_meaning units.now) p) }
{
    let text = read_file(files, name, 2)?;
    program_of(alloc, text.as_slice(), units, space)
}
