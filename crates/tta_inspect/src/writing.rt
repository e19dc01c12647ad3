//! The command `rtl`: the circuit of a machine with the code of an image, or with the code that is built
//! of a program.

ghost use Rattle.std.specs.Prelude.{◌≡◌, None, IfOk};
ghost use Rattle.tta_ops.specs.Set.{stated};
ghost use Rattle.tta_arch.specs.Over as machines;
ghost use Rattle.tta_program.specs.Over as programs;
ghost use Rattle.tta_program.specs.Program.{first_outside};
ghost use Rattle.tta_code.specs.Legal.{IsLegalWhole};
ghost use Rattle.tta_load.specs.Held.{MadeEnds, no_memory};
ghost use Rattle.tta_inspect.specs.Circuits.{IsBuiltCircuit, IsCircuitText, IsWholeCircuit};
ghost use Rattle.tta_inspect.specs.Circuits.{ShowsCircuit, Suits};
ghost use Rattle.tta_inspect.specs.Runs.{Lacks};
ghost use Rattle.tta_inspect.specs.Stages.{IsCauseOf};

use crate::names::RtlRequest;
use crate::staging::ending_of;
use crate::subject::{Subject, SubjectPair, subject_pair};
use crate::view::CircuitView;
use std::alloc::{AllocError, Global};
use tta_build::build;
use tta_code::Whole;
use tta_header::{Source, write_headed_file, write_headed_rtl};
use tta_load::{MachineFile, Status, put_made};
use tta_ops::UnitSet;
use tta_ports::{Files, Sink};
use tta_program::Program;

/// A text of the circuit of a machine with code and data.
fn write_view(
    alloc: Global,
    units: &UnitSet,
    view: CircuitView,
    file: &MachineFile,
    whole: &Whole,
) -> Result<Vec<u8>, AllocError>
    requires { IsLegalWhole file.now.machine whole.now }
    ensures { let U = stated unit_meaning units.now in
        IfOk result (λ v. IsWholeCircuit U view file.now whole.now v.items) }
{
    let of = Source {
        m: &file.machine,
        digest: &file.digest,
        whole,
    };
    match view {
        CircuitView::Module { rom, features } => write_headed_rtl(alloc, units, rom, features, &of),
        CircuitView::CodeFile => write_headed_file(alloc, &of),
    }
}

/// A text of the circuit of a machine with code and data.
fn text_of_whole(
    alloc: Global,
    units: &UnitSet,
    view: CircuitView,
    file: &MachineFile,
    whole: &Whole,
) -> Result<Vec<u8>, Status>
    requires { IsLegalWhole file.now.machine whole.now }
    ensures { let U = stated unit_meaning units.now in
        MadeEnds (IsWholeCircuit U view file.now whole.now) no_memory (λ v. v.items) result }
{
    match write_view(alloc, units, view, file, whole) {
        Ok(text) => Ok(text),
        Err(_) => Err(Status::NoMemory),
    }
}

/// A text of the circuit of a machine with the code that is built of a program, and its data.
fn text_of_built(
    alloc: Global,
    units: &UnitSet,
    view: CircuitView,
    file: &MachineFile,
    program: &Program,
) -> Result<Vec<u8>, Status>
    requires machine { machines.StandsOver (stated unit_meaning units.now) file.now.machine }
    requires program { programs.StandsOver (stated unit_meaning units.now) program.now }
    requires inside { first_outside file.now.machine.data_words program.now.init ≡ None }
    ensures { let U = stated unit_meaning units.now in
        MadeEnds (IsBuiltCircuit U view file.now program.now) (IsCauseOf U file.now.machine program.now)
        (λ v. v.items) result }
{
    match build(alloc, &file.machine, program, units) {
        Ok(built) => text_of_whole(alloc, units, view, file, &built.whole),
        Err(error) => Err(ending_of(error, units, &file.machine, program)),
    }
}

/// A text of the circuit of a machine with what was read for it.
fn text_of_circuit(
    alloc: Global,
    units: &UnitSet,
    view: CircuitView,
    pair: &SubjectPair,
) -> Result<Vec<u8>, Status>
    requires machine { machines.StandsOver (stated unit_meaning units.now) pair.now.file.machine }
    requires suits { Suits (stated unit_meaning units.now) pair.now.file.machine pair.now.subject }
    ensures { let U = stated unit_meaning units.now in
        MadeEnds (IsCircuitText U view pair.now.file pair.now.subject)
        (Lacks U pair.now.file pair.now.subject) (λ v. v.items) result }
{
    let file = &pair.file;
    match &pair.subject {
        Subject::Code(whole) => text_of_whole(alloc, units, view, file, whole),
        Subject::Program(program) => text_of_built(alloc, units, view, file, program),
    }
}

/// Puts a text of the circuit of the machine of the file that word 1 names with the code of the image, or of the
/// program, of the file that word 2 names.
pub fn put_circuit<F: Files, S: Sink>(
    alloc: Global,
    units: &UnitSet,
    files: &mut F,
    sink: &mut S,
    names: &RtlRequest<'_>,
) -> Status
    ensures { ShowsCircuit (stated unit_meaning units.now) names.now.view names.now.machine.now
        names.now.subject.now
        (F.world files.old) (F.world files.new) (S.output sink.old) (S.output sink.new) result }
{
    match subject_pair(alloc, units, files, names.machine, names.subject) {
        Ok(pair) => {
            let made = text_of_circuit(alloc, units, names.view, &pair);
            put_made(sink, made)
        }
        Err(status) => status,
    }
}
