//! The command `exec`: a program is run by its sequential meaning.

ghost use Rattle.std.specs.Prelude.{◌<◌, ◌^◌, length, option_map};
ghost use Rattle.tta_ops.specs.Set.{stated};
ghost use Rattle.tta_load.specs.Runs.{GivenRuns};
ghost use Rattle.tta_tool.specs.Exec.{Reports, Execs};

use crate::names::RunRequest;
use crate::program_run::{ProgramRun, load_program};
use crate::report::run_to_status;
use std::alloc::Global;
use tta_load::{Given, ProgramPair, Status, data_words, given_files, program_pair};
use tta_ops::UnitSet;
use tta_ports::{Files, Sink};

/// Runs a program from what it is given, and outputs its text.
fn carry_out<S: Sink>(
    alloc: Global,
    units: &UnitSet,
    sink: &mut S,
    pair: &ProgramPair,
    given: Given,
    bound: u64,
) -> Status
    requires bound { bound < 2 ^ 48 }
    requires short { length given.memory.items < 2 ^ 32 }
    ensures { let U = stated unit_meaning units.now in
        Reports U bound pair.now.file pair.now.program given.memory.items given.words.items
        (S.output sink.old) (S.output sink.new) result }
{
    let Given { memory, words } = given;
    let program = &pair.program;
    match load_program(alloc, program, memory) {
        Ok(seq) => {
            let mut ran = ProgramRun { program, seq };
            run_to_status(sink, &mut ran, units, words.as_slice(), bound)
        }
        Err(_) => Status::NoMemory,
    }
}

/// Makes the run that is asked for of a program that was read for a machine.
fn exec_pair<F: Files, S: Sink>(
    alloc: Global,
    units: &UnitSet,
    files: &mut F,
    sink: &mut S,
    request: &RunRequest<'_>,
    pair: &ProgramPair,
) -> Status
    ensures { let U = stated unit_meaning units.now in
        let names = request.now.names in
        GivenRuns pair.now.file.machine.data_words
        (Reports U request.now.bound pair.now.file pair.now.program)
        names.input.now (option_map (λ s. s.now) names.stream)
        (F.world files.old) (F.world files.new) (S.output sink.old) (S.output sink.new) result }
{
    let space = data_words(&pair.file.machine);
    match given_files(
        alloc,
        files,
        request.names.input,
        request.names.stream,
        5,
        space,
    ) {
        Ok(given) => carry_out(alloc, units, sink, pair, given, request.bound),
        Err(status) => status,
    }
}

/// Makes the run that is asked for of a program: for at most so many steps, from the data words of
/// the file `input` for the data space of the machine of the file `machine`, and with the words of
/// the file `stream`, where it is named, as the input. It outputs the run's text.
pub fn exec_program<F: Files, S: Sink>(
    alloc: Global,
    units: &UnitSet,
    files: &mut F,
    sink: &mut S,
    request: &RunRequest<'_>,
) -> Status
    ensures { let names = request.now.names in
        Execs (stated unit_meaning units.now) names.machine.now names.second.now names.input.now
        (option_map (λ s. s.now) names.stream) request.now.bound
        (F.world files.old) (F.world files.new) (S.output sink.old) (S.output sink.new) result }
{
    match program_pair(
        alloc,
        units,
        files,
        request.names.machine,
        request.names.second,
    ) {
        Ok(pair) => exec_pair(alloc, units, files, sink, request, &pair),
        Err(status) => status,
    }
}
