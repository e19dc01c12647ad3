//! What a command runs: the code of an image, or a program, which is compiled first. A file that begins
//! as an image is one.

ghost use Rattle.std.specs.Prelude.{◌≡◌, ◌≤◌, ◌^◌, true, false, length, IfOk};
ghost use Rattle.tta_ops.specs.Units.{Units};
ghost use Rattle.tta_ops.specs.Set.{stated};
ghost use Rattle.tta_arch.specs.Over as machines;
ghost use Rattle.tta_load.specs.Held.{TakesBytes, FileEnds};
ghost use Rattle.tta_load.specs.Pairs.{PairEnds};
ghost use Rattle.tta_inspect.specs.Subjects.{begins_as_image, IsSubject, RefusesSubject, Suits};

use std::alloc::Global;
use tta_code::Whole;
use tta_load::{MachineFile, Status, data_words, machine_file, program_of, read_file, whole_of};
use tta_ops::UnitSet;
use tta_ports::Files;
use tta_program::Program;

/// What is run.
#[derive(Drop)]
pub enum Subject {
    /// The code of an image with its data.
    Code(Whole),
    /// A program, of which the code is built.
    Program(Program),
}

/// A machine, and what is run on it.
#[derive(Drop)]
pub struct SubjectPair {
    pub file: MachineFile,
    pub subject: Subject,
}

/// Whether bytes begin as those of an image do.
fn begins_as_image(bytes: &[u8]) -> bool
    ensures { result ≡ begins_as_image bytes.now }
{
    bytes.starts_with(b"TTAI")
}

/// The program of bytes for a machine, as what is run.
fn program_in(
    alloc: Global,
    units: &UnitSet,
    bytes: &[u8],
    file: &MachineFile,
) -> Result<Subject, Status>
    requires short { length bytes.now ≤ 2 ^ 24 }
    requires text { begins_as_image bytes.now ≡ false }
    ensures takes { let U = stated unit_meaning units.now in
        TakesBytes (IsSubject U file.now) (RefusesSubject U file.now) bytes.now (λ s. s) result }
    ensures suits { IfOk result (λ s. Suits (stated unit_meaning units.now) file.now.machine s) }
{
    match program_of(alloc, bytes, units, data_words(&file.machine)) {
        Ok(program) => Ok(Subject::Program(program)),
        Err(status) => Err(status),
    }
}

/// The code of the image of bytes for a machine, as what is run.
fn code_in(alloc: Global, bytes: &[u8], file: &MachineFile) -> Result<Subject, Status>
    requires image { begins_as_image bytes.now ≡ true }
    ensures takes { (u : Units)
        → TakesBytes (IsSubject u file.now) (RefusesSubject u file.now) bytes.now (λ s. s) result }
    ensures suits { (u : Units) → IfOk result (λ s. Suits u file.now.machine s) }
{
    match whole_of(alloc, bytes, file) {
        Ok(whole) => Ok(Subject::Code(whole)),
        Err(status) => Err(status),
    }
}

/// What bytes give to run on a machine.
fn subject_of(
    alloc: Global,
    units: &UnitSet,
    bytes: &[u8],
    file: &MachineFile,
) -> Result<Subject, Status>
    requires { length bytes.now ≤ 2 ^ 24 }
    ensures takes { let U = stated unit_meaning units.now in
        TakesBytes (IsSubject U file.now) (RefusesSubject U file.now) bytes.now (λ s. s) result }
    ensures suits { IfOk result (λ s. Suits (stated unit_meaning units.now) file.now.machine s) }
{
    if begins_as_image(bytes) {
        code_in(alloc, bytes, file)
    } else {
        program_in(alloc, units, bytes, file)
    }
}

/// What the file that word 2 names gives to run on a machine.
fn subject_file<F: Files>(
    alloc: Global,
    units: &UnitSet,
    files: &mut F,
    name: &str,
    file: &MachineFile,
) -> Result<Subject, Status>
    ensures ends { let U = stated unit_meaning units.now in
        FileEnds (IsSubject U file.now) (RefusesSubject U file.now) name.now 2
        (F.world files.old) (F.world files.new) (λ s. s) result }
    ensures suits { IfOk result (λ s. Suits (stated unit_meaning units.now) file.now.machine s) }
{
    let bytes = read_file(files, name, 2)?;
    subject_of(alloc, units, bytes.as_slice(), file)
}

/// The machine that word 1 names, and what the file that word 2 names gives to run on it.
pub fn subject_pair<F: Files>(
    alloc: Global,
    units: &UnitSet,
    files: &mut F,
    machine: &str,
    subject: &str,
) -> Result<SubjectPair, Status>
    ensures ends { let U = stated unit_meaning units.now in
        PairEnds U (IsSubject U) (RefusesSubject U) machine.now subject.now
        (F.world files.old) (F.world files.new) (λ p. p.file) (λ p. p.subject) result }
    ensures machine { let U = stated unit_meaning units.now in
        IfOk result (λ p. machines.StandsOver U p.file.machine) }
    ensures suits { let U = stated unit_meaning units.now in
        IfOk result (λ p. Suits U p.file.machine p.subject) }
{
    let file = machine_file(alloc, units, files, machine, 1)?;
    let subject = subject_file(alloc, units, files, subject, &file)?;
    Ok(SubjectPair { file, subject })
}
