//! The first two files of a command: a machine, and what is for it. The machine is checked before the
//! second file is read.

ghost use Rattle.std.specs.Prelude.{◌≡◌, None, IfOk};
ghost use Rattle.tta_ops.specs.Set.{stated};
ghost use Rattle.tta_arch.specs.Over as machines;
ghost use Rattle.tta_program.specs.Over as programs;
ghost use Rattle.tta_program.specs.Program.{first_outside};
ghost use Rattle.tta_code.specs.Legal.{IsLegalCode, IsLegalWhole};
ghost use Rattle.tta_load.specs.Programs.{IsProgramFor, RefusesProgramFor};
ghost use Rattle.tta_load.specs.Images.{IsImageFor, RefusesImage};
ghost use Rattle.tta_load.specs.Assemblies.{IsAssemblyFor, RefusesAssembly};
ghost use Rattle.tta_load.specs.Pairs.{PairEnds};

use crate::assembly::assembly_file;
use crate::image::whole_file;
use crate::machine::{MachineFile, data_words, machine_file};
use crate::program::program_file;
use crate::status::Status;
use std::alloc::Global;
use tta_code::Whole;
use tta_ops::UnitSet;
use tta_ports::Files;
use tta_tac::Program;

/// A machine, and a program whose data lie in its data space.
#[derive(Drop)]
pub struct ProgramPair {
    pub file: MachineFile,
    pub program: Program,
}

/// A machine, and code with data for it.
#[derive(Drop)]
pub struct CodePair {
    pub file: MachineFile,
    pub whole: Whole,
}

/// The machine that word 1 names, and the program that word 2 names.
pub fn program_pair<F: Files>(
    alloc: Global,
    units: &UnitSet,
    files: &mut F,
    machine: &str,
    program: &str,
) -> Result<ProgramPair, Status>
    ensures ends { let U = stated unit_meaning units.now in
        PairEnds U (IsProgramFor U) (RefusesProgramFor U) machine.now program.now
        (F.world files.old) (F.world files.new) (λ p. p.file) (λ p. p.program) result }
    ensures machine { let U = stated unit_meaning units.now in
        IfOk result (λ p. machines.StandsOver U p.file.machine) }
    ensures program { let U = stated unit_meaning units.now in
        IfOk result (λ p. programs.StandsOver U p.program) }
    ensures inside { IfOk result (λ p.
        first_outside p.file.machine.data_words p.program.init ≡ None) }
{
    let file = machine_file(alloc, units, files, machine, 1)?;
    let space = data_words(&file.machine);
    let program = program_file(alloc, units, files, program, space)?;
    Ok(ProgramPair { file, program })
}

/// The machine that word 1 names, and the code of the image that word 2 names.
pub fn image_pair<F: Files>(
    alloc: Global,
    units: &UnitSet,
    files: &mut F,
    machine: &str,
    image: &str,
) -> Result<CodePair, Status>
    ensures ends { let U = stated unit_meaning units.now in
        PairEnds U IsImageFor RefusesImage machine.now image.now
        (F.world files.old) (F.world files.new) (λ p. p.file) (λ p. p.whole) result }
    ensures legal { IfOk result (λ p. IsLegalCode p.file.machine p.whole.code) }
{
    let file = machine_file(alloc, units, files, machine, 1)?;
    let whole = whole_file(alloc, files, image, 2, &file)?;
    Ok(CodePair { file, whole })
}

/// The machine that word 1 names, and the code of the assembly that word 2 names.
pub fn assembly_pair<F: Files>(
    alloc: Global,
    units: &UnitSet,
    files: &mut F,
    machine: &str,
    assembly: &str,
) -> Result<CodePair, Status>
    ensures ends { let U = stated unit_meaning units.now in
        PairEnds U (IsAssemblyFor U) (RefusesAssembly U) machine.now assembly.now
        (F.world files.old) (F.world files.new) (λ p. p.file) (λ p. p.whole) result }
    ensures legal { IfOk result (λ p. IsLegalWhole p.file.machine p.whole) }
{
    let file = machine_file(alloc, units, files, machine, 1)?;
    let whole = assembly_file(alloc, units, files, assembly, &file)?;
    Ok(CodePair { file, whole })
}
