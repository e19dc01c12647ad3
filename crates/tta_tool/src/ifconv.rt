//! The command `ifconv`: the converted program, as its printed text.

ghost use Rattle.std.specs.Prelude.{◌≡◌};
ghost use Rattle.tta_ops.specs.Set.{stated};
ghost use Rattle.tta_program.specs.Over.{StandsOver};
ghost use Rattle.tta_pretty.specs.Printed.{printed};
ghost use Rattle.tta_load.specs.Held.{MadeEnds, no_memory};
ghost use Rattle.tta_tool.specs.Ifconv.{IsConvertedText, WritesConverted};

use crate::names::ConvertRequest;
use std::alloc::Global;
use tta_ifconv::convert;
use tta_load::{Status, source_file, write_made};
use tta_ops::UnitSet;
use tta_ports::Files;
use tta_pretty::print_program;
use tta_tac::Program;

/// The printed text of a program.
fn printed_text(alloc: Global, units: &UnitSet, program: &Program) -> Result<Vec<u8>, Status>
    requires { StandsOver (stated unit_meaning units.now) program.now }
    ensures { let U = stated unit_meaning units.now in
        MadeEnds (λ text. text ≡ printed U program.now) no_memory (λ v. v.items) result }
{
    match print_program(alloc, program, units) {
        Ok(text) => Ok(text),
        Err(_) => Err(Status::NoMemory),
    }
}

/// The printed text of the converted program.
fn converted_text(alloc: Global, units: &UnitSet, program: &Program) -> Result<Vec<u8>, Status>
    requires { StandsOver (stated unit_meaning units.now) program.now }
    ensures { let U = stated unit_meaning units.now in
        MadeEnds (IsConvertedText U program.now) no_memory (λ v. v.items) result }
{
    match convert(alloc, program) {
        Ok(converted) => printed_text(alloc, units, &converted),
        Err(_) => Err(Status::NoMemory),
    }
}

/// Converts the program of the first file, and writes its printed text.
pub fn convert_program<F: Files>(
    alloc: Global,
    units: &UnitSet,
    files: &mut F,
    request: &ConvertRequest<'_>,
) -> Status
    ensures { WritesConverted (stated unit_meaning units.now)
        request.now.program.now request.now.out.now
        (F.world files.old) (F.world files.new) result }
{
    match source_file(alloc, units, files, request.program, 1) {
        Ok(program) => {
            let made = converted_text(alloc, units, &program);
            write_made(files, request.out, made)
        }
        Err(status) => status,
    }
}
