//! Code with data, as assembly.

ghost use Rattle.std.specs.Prelude.{◌≤◌, ◌^◌, length, IfOk};
ghost use Rattle.tta_ops.specs.Set.{stated};
ghost use Rattle.tta_code.specs.Legal.{IsLegalWhole};
ghost use Rattle.tta_load.specs.Held.{TakesBytes, FileEnds};
ghost use Rattle.tta_load.specs.Assemblies.{IsAssemblyFor, RefusesAssembly};

use crate::machine::MachineFile;
use crate::reading::read_file;
use crate::status::Status;
use std::alloc::Global;
use tta_asm::{AsmError, assemble};
use tta_code::Whole;
use tta_ops::UnitSet;
use tta_ports::Files;

/// The code of an assembly text with its data, for a machine.
fn assembly_of(
    alloc: Global,
    text: &[u8],
    file: &MachineFile,
    units: &UnitSet,
) -> Result<Whole, Status>
    requires { length text.now ≤ 2 ^ 24 }
    ensures takes { let U = stated unit_meaning units.now in
        TakesBytes (IsAssemblyFor U file.now) (RefusesAssembly U file.now) text.now
        (λ w. w) result }
    ensures legal { IfOk result (λ whole. IsLegalWhole file.now.machine whole) }
{
    match assemble(alloc, text, &file.machine, units) {
        Ok(whole) => Ok(whole),
        Err(AsmError::Refused { line, code }) => Err(Status::BadAsm { line, code }),
        Err(AsmError::NoMemory) => Err(Status::NoMemory),
    }
}

/// The code of the assembly of the file that word 2 names, with its data, for a machine.
pub fn assembly_file<F: Files>(
    alloc: Global,
    units: &UnitSet,
    files: &mut F,
    name: &str,
    file: &MachineFile,
) -> Result<Whole, Status>
    ensures ends { let U = stated unit_meaning units.now in
        FileEnds (IsAssemblyFor U file.now) (RefusesAssembly U file.now) name.now 2
        (F.world files.old) (F.world files.new) (λ w. w) result }
    ensures legal { IfOk result (λ whole. IsLegalWhole file.now.machine whole) }
{
    let text = read_file(files, name, 2)?;
    assembly_of(alloc, text.as_slice(), file, units)
}
