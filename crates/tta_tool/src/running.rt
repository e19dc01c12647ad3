//! The command `run`: the code of an image is run cycle by cycle.

ghost use Rattle.std.specs.Prelude.{◌≡◌, ◌<◌, ◌^◌, length, option_map};
ghost use Rattle.tta_ops.specs.Set.{stated};
ghost use Rattle.tta_code.specs.Legal.{IsLegalCode};
ghost use Rattle.tta_load.specs.Runs.{GivenRuns};
ghost use Rattle.tta_tool.specs.Run.{Reports, Runs};

use crate::names::RunRequest;
use crate::report::run_to_status;
use std::alloc::Global;
use tta_code_run::{CodeRun, load_code};
use tta_load::{CodePair, Given, Status, data_words, given_files, image_pair};
use tta_ops::UnitSet;
use tta_ports::{Files, Sink};

/// Runs code from what it is given, and outputs its text.
fn carry_out<S: Sink>(
    alloc: Global,
    units: &UnitSet,
    sink: &mut S,
    pair: &CodePair,
    given: Given,
    bound: u64,
) -> Status
    requires bound { bound < 2 ^ 48 }
    requires size { length given.memory.items ≡ pair.now.file.machine.data_words }
    requires short { length given.memory.items < 2 ^ 32 }
    requires legal { IsLegalCode pair.now.file.machine pair.now.whole.code }
    ensures { let U = stated unit_meaning units.now in
        Reports U bound pair.now.file pair.now.whole given.memory.items given.words.items
        (S.output sink.old) (S.output sink.new) result }
{
    let Given { memory, words } = given;
    let machine = &pair.file.machine;
    match load_code(alloc, machine, &pair.whole, memory) {
        Ok(sim) => {
            let code = &pair.whole.code;
            let mut ran = CodeRun { machine, code, sim };
            run_to_status(sink, &mut ran, units, words.as_slice(), bound)
        }
        Err(_) => Status::NoMemory,
    }
}

/// Makes the run that is asked for of code that was read for a machine.
fn run_pair<F: Files, S: Sink>(
    alloc: Global,
    units: &UnitSet,
    files: &mut F,
    sink: &mut S,
    request: &RunRequest<'_>,
    pair: &CodePair,
) -> Status
    requires legal { IsLegalCode pair.now.file.machine pair.now.whole.code }
    ensures { let U = stated unit_meaning units.now in
        let names = request.now.names in
        GivenRuns pair.now.file.machine.data_words
        (Reports U request.now.bound pair.now.file pair.now.whole)
        names.input.now (option_map (λ s. s.now) names.stream)
        (F.world files.old) (F.world files.new) (S.output sink.old) (S.output sink.new) result }
{
    let space = data_words(&pair.file.machine);
    match given_files(
        alloc,
        files,
        request.names.input,
        request.names.stream,
        5,
        space,
    ) {
        Ok(given) => carry_out(alloc, units, sink, pair, given, request.bound),
        Err(status) => status,
    }
}

/// Makes the run that is asked for of an image on the machine of the file `machine`: for at most so
/// many cycles, from the data words of the file `input`, and with the words of the file `stream`,
/// where it is named, as the input. It outputs the run's text.
pub fn run_image<F: Files, S: Sink>(
    alloc: Global,
    units: &UnitSet,
    files: &mut F,
    sink: &mut S,
    request: &RunRequest<'_>,
) -> Status
    ensures { let names = request.now.names in
        Runs (stated unit_meaning units.now) names.machine.now names.second.now names.input.now
        (option_map (λ s. s.now) names.stream) request.now.bound
        (F.world files.old) (F.world files.new) (S.output sink.old) (S.output sink.new) result }
{
    match image_pair(
        alloc,
        units,
        files,
        request.names.machine,
        request.names.second,
    ) {
        Ok(pair) => run_pair(alloc, units, files, sink, request, &pair),
        Err(status) => status,
    }
}
