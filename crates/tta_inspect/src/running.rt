//! The commands `profile`, `play` and `waves`: the code of an image, or of a program, is run cycle by cycle,
//! and it is told where the cycles go, or a page is made that plays them, or a dump of their signals.

ghost use Rattle.std.specs.Prelude.{◌≡◌, ◌+◌, ◌<◌, ◌^◌, [], None, length, option_map};
ghost use Rattle.tta_ops.specs.Set.{stated};
ghost use Rattle.tta_arch.specs.Over as machines;
ghost use Rattle.tta_code.specs.Cycle.{State};
ghost use Rattle.tta_code.specs.Legal.{IsLegalCode};
ghost use Rattle.tta_sim.specs.Held.{Stands, IsRunOf};
ghost use Rattle.tta_load.specs.Held.{MadeEnds, no_memory};
ghost use Rattle.tta_load.specs.Runs.{GivenRuns};
ghost use Rattle.tta_inspect.specs.Spans.{first_of};
ghost use Rattle.tta_inspect.specs.Subjects.{Suits};
ghost use Rattle.tta_inspect.specs.Runs.{IsRunShown, IsViewOf, IsShown, Lacks, ShowsRun, Tells};

use crate::compiled::text_of_program;
use crate::names::RunRequest;
use crate::subject::{Subject, SubjectPair, subject_pair};
use crate::view::RunView;
use std::alloc::Global;
use tta_code::Whole;
use tta_code_run::load_code;
use tta_load::{Given, MachineFile, Status, data_words, given_files, put_made};
use tta_ops::UnitSet;
use tta_play::{ProgramTexts, Span, play, play_after};
use tta_ports::{Files, Sink};
use tta_profile::{Basis, profile};
use tta_sim::Sim;
use tta_waves::waves;

/// The view of a run of this code.
fn text_of_basis(
    alloc: Global,
    basis: &Basis<'_>,
    view: RunView,
    sim: &mut Sim,
    words: &[u32],
    bound: u64,
) -> Result<Vec<u8>, Status>
    requires loaded { IsRunOf basis.now.m.now basis.now.code.now sim.old }
    requires few { sim.old.cycle + first_of view + bound < 2 ^ 62 }
    ensures { let on = basis.now in let U = stated unit_meaning on.units.now in
        (s : State) → Stands sim.old s → s.written ≡ [] → s.pending ≡ None → s.rest ≡ words.now
        → MadeEnds (IsRunShown U view on.m.now on.code.now s bound) no_memory
        (λ v. v.items) result }
{
    let untold = ProgramTexts {
        stages: &[],
        origins: &[],
    };
    let text = match view {
        RunView::Profile => profile(alloc, basis, sim, words, bound),
        RunView::Play => play(alloc, basis, &untold, sim, words, bound),
        RunView::PlayAfter(first) => play_after(
            alloc,
            basis,
            &untold,
            sim,
            words,
            Span { first, bound },
        ),
        RunView::Waves => waves(alloc, basis, sim, words, bound),
    };
    match text {
        Ok(text) => Ok(text),
        Err(_) => Err(Status::NoMemory),
    }
}

/// Code with its data, and the machine that it runs on.
#[derive(Clone, Copy)]
struct Loaded<'a> {
    file: &'a MachineFile,
    whole: &'a Whole,
}

/// The view of a run that was loaded.
fn text_of_sim<'x>(
    alloc: Global,
    units: &'x UnitSet,
    on: &'x Loaded<'x>,
    sim: &mut Sim,
    words: &[u32],
    request: &RunRequest<'_>,
) -> Result<Vec<u8>, Status>
    requires loaded { IsRunOf on.now.file.now.machine on.now.whole.now.code sim.old }
    requires few { sim.old.cycle + first_of request.now.view + request.now.bound < 2 ^ 62 }
    ensures { let U = stated unit_meaning units.now in
        (s : State) → Stands sim.old s → s.written ≡ [] → s.pending ≡ None → s.rest ≡ words.now
        → MadeEnds (IsRunShown U request.now.view on.now.file.now.machine on.now.whole.now.code s
        request.now.bound) no_memory (λ v. v.items) result }
{
    let (file, whole) = (on.file, on.whole);
    let basis = Basis {
        m: &file.machine,
        code: &whole.code,
        units,
    };
    text_of_basis(alloc, &basis, request.view, sim, words, request.bound)
}

/// The view of a run of code from what it is given.
fn text_of_run<'x>(
    alloc: Global,
    units: &'x UnitSet,
    on: &'x Loaded<'x>,
    given: Given,
    request: &RunRequest<'_>,
) -> Result<Vec<u8>, Status>
    requires bound { request.now.bound < 2 ^ 48 }
    requires early { first_of request.now.view < 2 ^ 48 }
    requires size { length given.memory.items ≡ on.now.file.now.machine.data_words }
    requires legal { IsLegalCode on.now.file.now.machine on.now.whole.now.code }
    ensures { let U = stated unit_meaning units.now in
        MadeEnds (IsViewOf U request.now.view request.now.bound on.now.file.now on.now.whole.now
        given.memory.items given.words.items) no_memory (λ v. v.items) result }
{
    let Given { memory, words } = given;
    let (file, whole) = (on.file, on.whole);
    match load_code(alloc, &file.machine, whole, memory) {
        Ok(mut sim) => text_of_sim(alloc, units, on, &mut sim, words.as_slice(), request),
        Err(_) => Err(Status::NoMemory),
    }
}

/// The view of a run of what was read, from what it is given.
fn text_of_subject(
    alloc: Global,
    units: &UnitSet,
    pair: &SubjectPair,
    given: Given,
    request: &RunRequest<'_>,
) -> Result<Vec<u8>, Status>
    requires bound { request.now.bound < 2 ^ 48 }
    requires early { first_of request.now.view < 2 ^ 48 }
    requires size { length given.memory.items ≡ pair.now.file.machine.data_words }
    requires machine { machines.StandsOver (stated unit_meaning units.now) pair.now.file.machine }
    requires suits { Suits (stated unit_meaning units.now) pair.now.file.machine pair.now.subject }
    ensures { let U = stated unit_meaning units.now in
        MadeEnds (IsShown U request.now.view request.now.bound pair.now.file pair.now.subject
        given.memory.items given.words.items) (Lacks U pair.now.file pair.now.subject)
        (λ v. v.items) result }
{
    let file = &pair.file;
    match &pair.subject {
        Subject::Code(whole) => {
            let on = Loaded { file, whole };
            text_of_run(alloc, units, &on, given, request)
        }
        Subject::Program(p) => text_of_program(alloc, units, file, p, given, request),
    }
}

/// Puts the view that is asked for of a run of what was read for a machine.
fn run_pair<F: Files, S: Sink>(
    alloc: Global,
    units: &UnitSet,
    files: &mut F,
    sink: &mut S,
    request: &RunRequest<'_>,
    pair: &SubjectPair,
) -> Status
    requires machine { machines.StandsOver (stated unit_meaning units.now) pair.now.file.machine }
    requires suits { Suits (stated unit_meaning units.now) pair.now.file.machine pair.now.subject }
    ensures { let U = stated unit_meaning units.now in
        GivenRuns pair.now.file.machine.data_words
        (Tells U request.now.view request.now.bound pair.now.file pair.now.subject)
        request.now.input.now (option_map (λ s. s.now) request.now.stream)
        (F.world files.old) (F.world files.new) (S.output sink.old) (S.output sink.new) result }
{
    let space = data_words(&pair.file.machine);
    match given_files(alloc, files, request.input, request.stream, 5, space) {
        Ok(given) => {
            let made = text_of_subject(alloc, units, pair, given, request);
            put_made(sink, made)
        }
        Err(status) => status,
    }
}

/// Puts the view of the run that is asked for of an image or a program on the machine of the file
/// `machine`: for at most so many cycles, from the data words of the file `input`, and with the words of
/// the file `stream`, where it is named, as the input.
pub fn run_subject<F: Files, S: Sink>(
    alloc: Global,
    units: &UnitSet,
    files: &mut F,
    sink: &mut S,
    request: &RunRequest<'_>,
) -> Status
    ensures { ShowsRun (stated unit_meaning units.now) request.now.view
        request.now.machine.now request.now.subject.now request.now.input.now
        (option_map (λ s. s.now) request.now.stream) request.now.bound
        (F.world files.old) (F.world files.new) (S.output sink.old) (S.output sink.new) result }
{
    match subject_pair(alloc, units, files, request.machine, request.subject) {
        Ok(pair) => run_pair(alloc, units, files, sink, request, &pair),
        Err(status) => status,
    }
}
