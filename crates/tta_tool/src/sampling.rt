//! The command `sample`: a program that is made of a number is compiled, and compared with its code.

ghost use Rattle.std.specs.Prelude.{◌≡◌, ◌<◌, ◌≤◌, ◌^◌, None, IfOk};
ghost use Rattle.tta_ops.specs.Set.{stated};
ghost use Rattle.tta_arch.specs.Over as machines;
ghost use Rattle.tta_program.specs.Over as programs;
ghost use Rattle.tta_program.specs.Program.{first_outside};
ghost use Rattle.tta_sample.specs.Sample.{sample_text};
ghost use Rattle.tta_load.specs.Held.{TakesBytes};
ghost use Rattle.tta_load.specs.Programs.{IsProgramIn, RefusesProgram};
ghost use Rattle.tta_tool.specs.Sample.{CompileEnds, SampleForEnds, Samples};

use crate::build::ending_of;
use crate::comparing::{Compiled, compare};
use crate::names::SampleRequest;
use std::alloc::Global;
use tta_build::build;
use tta_load::{Status, data_words, machine_file, program_of};
use tta_machine::Machine;
use tta_ops::UnitSet;
use tta_ports::{Files, Sink};
use tta_sample::sample;
use tta_tac::Program;

/// Compiles a program and compares it with its code.
fn compile_and_compare<S: Sink>(
    alloc: Global,
    units: &UnitSet,
    sink: &mut S,
    machine: &Machine,
    program: &Program,
    bound: u64,
) -> Status
    requires bound { bound < 2 ^ 24 }
    requires machine { machines.StandsOver (stated unit_meaning units.now) machine.now }
    requires program { programs.StandsOver (stated unit_meaning units.now) program.now }
    requires inside { first_outside machine.now.data_words program.now.init ≡ None }
    ensures { let U = stated unit_meaning units.now in
        CompileEnds U machine.now program.now bound
        (S.output sink.old) (S.output sink.new) result }
{
    match build(alloc, machine, program, units) {
        Ok(built) => {
            let compiled = Compiled {
                machine,
                program,
                whole: &built.whole,
            };
            compare(alloc, units, sink, &compiled, bound)
        }
        Err(error) => ending_of(error),
    }
}

/// The program of a sample's text, whose data lie in a space of so many words.
fn sample_program(
    alloc: Global,
    units: &UnitSet,
    seed: u32,
    lines: u32,
    space: u32,
) -> Result<Program, Status>
    requires some { 1 ≤ lines }
    requires few { lines ≤ 20000 }
    ensures takes { let U = stated unit_meaning units.now in
        TakesBytes (IsProgramIn U space) (RefusesProgram U space) (sample_text seed lines)
        (λ p. p) result }
    ensures over { IfOk result (λ p. programs.StandsOver (stated unit_meaning units.now) p) }
{
    match sample(alloc, seed, lines) {
        Ok(text) => program_of(alloc, text.as_slice(), units, space),
        Err(_) => Err(Status::NoMemory),
    }
}

/// Makes a sample and compares it with its code, for a machine that was read.
fn sample_for<S: Sink>(
    alloc: Global,
    units: &UnitSet,
    sink: &mut S,
    seed: u32,
    lines: u32,
    machine: &Machine,
) -> Status
    requires some { 1 ≤ lines }
    requires few { lines ≤ 20000 }
    requires machine { machines.StandsOver (stated unit_meaning units.now) machine.now }
    ensures { SampleForEnds (stated unit_meaning units.now) machine.now seed lines
        (S.output sink.old) (S.output sink.new) result }
{
    match sample_program(alloc, units, seed, lines, data_words(machine)) {
        Ok(program) => {
            let bound = 32 * u64::from(lines) + 50;
            compile_and_compare(alloc, units, sink, machine, &program, bound)
        }
        Err(status) => status,
    }
}

/// Makes the sample that is asked for, compiles it for the machine of the file that word 3 names,
/// runs both from data words of 0 and without an input, and puts a summary.
pub fn sample_on<F: Files, S: Sink>(
    alloc: Global,
    units: &UnitSet,
    files: &mut F,
    sink: &mut S,
    request: &SampleRequest<'_>,
) -> Status
    ensures { Samples (stated unit_meaning units.now)
        request.now.seed request.now.lines request.now.machine.now
        (F.world files.old) (F.world files.new) (S.output sink.old) (S.output sink.new) result }
{
    let SampleRequest { seed, lines, .. } = *request;
    match machine_file(alloc, units, files, request.machine, 3) {
        Ok(file) => sample_for(alloc, units, sink, seed, lines, &file.machine),
        Err(status) => status,
    }
}
