//! The command `debug`: the commands of a script are carried out over the run of an image.

ghost use Rattle.std.specs.Prelude.{◌≡◌, ◌<◌, ◌≤◌, ◌^◌, length, option_map, IfOk};
ghost use Rattle.tta_ops.specs.Set.{stated};
ghost use Rattle.tta_code.specs.Legal.{IsLegalCode};
ghost use Rattle.tta_sim.specs.Held.{IsRunOf};
ghost use Rattle.tta_debug.specs.Debugged.{Debugged, session as replies_of};
ghost use Rattle.tta_debug.specs.Scripts.{lines_of};
ghost use Rattle.tta_debug.specs.Sessions.{Follows};
ghost use Rattle.tta_tool.specs.Debug.{said, ScriptEnds, AskedEnds, EndsAs, SessionEnds};
ghost use Rattle.tta_tool.specs.Debug.{AskedRuns, Debugs};

use crate::names::SessionRequest;
use std::alloc::Global;
use tta_code::Code;
use tta_code_run::load_code;
use tta_debug::{Basis, Session, run_script};
use tta_load::{CodePair, Status, data_words, image_pair, input_file, read_file, stream_file};
use tta_machine::Machine;
use tta_ops::UnitSet;
use tta_ports::{Failed, Files, Sink};
use tta_sim::{Ending, Sim};

/// A script, and the words of the input.
#[derive(Drop)]
struct Script {
    bytes: Vec<u8>,
    words: Vec<u32>,
}

/// The bytes of the script that word 4 names, and the words of the input.
fn script_files<F: Files>(
    alloc: Global,
    files: &mut F,
    script: &str,
    stream: Option<&str>,
) -> Result<Script, Status>
    ensures ends { ScriptEnds script.now (option_map (λ s. s.now) stream.entry)
        (F.world files.old) (F.world files.new)
        (λ s. s.bytes.items) (λ s. s.words.items) result }
    ensures short { IfOk result (λ s. length s.bytes.items ≤ 2 ^ 24) }
{
    let bytes = read_file(files, script, 4)?;
    let words = stream_file(alloc, files, stream, 5)?;
    Ok(Script { bytes, words })
}

/// What a session is asked, and what its run begins with: the data words, a script, and the words of
/// the input.
#[derive(Drop)]
struct Asked {
    memory: Vec<u32>,
    script: Script,
}

/// The data words that word 3 names, as many as the space has, the script that word 4 names and the
/// words of the input.
fn asked_files<F: Files>(
    alloc: Global,
    files: &mut F,
    request: &SessionRequest<'_>,
    space: u32,
) -> Result<Asked, Status>
    ensures ends { let names = request.now.names in
        AskedEnds space names.input.now request.now.script.now
        (option_map (λ s. s.now) names.stream) (F.world files.old) (F.world files.new)
        (λ a. a.memory.items) (λ a. a.script.bytes.items) (λ a. a.script.words.items) result }
    ensures size { IfOk result (λ a. length a.memory.items ≡ space) }
    ensures short { IfOk result (λ a. length a.script.bytes.items ≤ 2 ^ 24) }
{
    let memory = input_file(alloc, files, request.names.input, 3, space)?;
    let script = script_files(alloc, files, request.script, request.names.stream)?;
    Ok(Asked { memory, script })
}

/// How the command ends where the run stands so.
fn status_of(sim: &Sim) -> Status
    ensures { EndsAs sim.now.outcome result }
{
    match sim.ending() {
        Ending::Running => Status::Ok,
        Ending::Halted => Status::Ok,
        Ending::Fault { number, cycle } => Status::MachineFault {
            code: number,
            cycle,
        },
    }
}

/// Carries out a script, and answers how the command ends. It takes no memory.
fn script_to_status<S: Sink>(
    sink: &mut S,
    machine: &Machine,
    code: &Code,
    units: &UnitSet,
    session: &mut Session,
    script: &Script,
) -> Status
    requires loaded { IsRunOf machine.now code.now session.old.held }
    requires few { session.old.held.cycle < 2 ^ 60 }
    requires short { length script.now.bytes.items ≤ 2 ^ 24 }
    ensures { let U = stated unit_meaning units.now in
        (d : Debugged) → Follows script.now.words.items session.old d
        → SessionEnds (replies_of U machine.now code.now (lines_of script.now.bytes.items) d)
        (S.output sink.old) (S.output sink.new) result }
{
    let lines = script.bytes.as_slice();
    let words = script.words.as_slice();
    let basis = Basis {
        m: machine,
        code,
        units,
        input: words,
    };
    match run_script(session, lines, &basis, sink) {
        Ok(()) => status_of(session.sim()),
        Err(Failed) => Status::WriteFault,
    }
}

/// Carries out the session that is asked for over the run of code.
fn carry_out<S: Sink>(
    alloc: Global,
    units: &UnitSet,
    sink: &mut S,
    pair: &CodePair,
    asked: Asked,
) -> Status
    requires size { length asked.memory.items ≡ pair.now.file.machine.data_words }
    requires short { length asked.script.bytes.items ≤ 2 ^ 24 }
    requires legal { IsLegalCode pair.now.file.machine pair.now.whole.code }
    ensures { let U = stated unit_meaning units.now in
        SessionEnds (said U pair.now.file.machine pair.now.whole
        asked.memory.items asked.script.bytes.items asked.script.words.items)
        (S.output sink.old) (S.output sink.new) result }
{
    let Asked { memory, script } = asked;
    let machine = &pair.file.machine;
    match load_code(alloc, machine, &pair.whole, memory) {
        Ok(sim) => {
            let mut session = Session::new(sim);
            let code = &pair.whole.code;
            script_to_status(sink, machine, code, units, &mut session, &script)
        }
        Err(_) => Status::NoMemory,
    }
}

/// Carries out the session that is asked for over code that was read for a machine.
fn debug_pair<F: Files, S: Sink>(
    alloc: Global,
    units: &UnitSet,
    files: &mut F,
    sink: &mut S,
    request: &SessionRequest<'_>,
    pair: &CodePair,
) -> Status
    requires legal { IsLegalCode pair.now.file.machine pair.now.whole.code }
    ensures { let U = stated unit_meaning units.now in
        let names = request.now.names in
        AskedRuns U pair.now.file.machine pair.now.whole
        names.input.now request.now.script.now (option_map (λ s. s.now) names.stream)
        (F.world files.old) (F.world files.new) (S.output sink.old) (S.output sink.new) result }
{
    match asked_files(alloc, files, request, data_words(&pair.file.machine)) {
        Ok(asked) => carry_out(alloc, units, sink, pair, asked),
        Err(status) => status,
    }
}

/// Carries out the session that is asked for: the script over the run of the image on the machine
/// of the file `machine`, from the data words of the file `input` and with the words of the file
/// `stream`, where it is named, as the input. It puts the replies.
pub fn debug_image<F: Files, S: Sink>(
    alloc: Global,
    units: &UnitSet,
    files: &mut F,
    sink: &mut S,
    request: &SessionRequest<'_>,
) -> Status
    ensures { let names = request.now.names in
        Debugs (stated unit_meaning units.now) names.machine.now names.second.now names.input.now
        request.now.script.now (option_map (λ s. s.now) names.stream)
        (F.world files.old) (F.world files.new) (S.output sink.old) (S.output sink.new) result }
{
    match image_pair(
        alloc,
        units,
        files,
        request.names.machine,
        request.names.second,
    ) {
        Ok(pair) => debug_pair(alloc, units, files, sink, request, &pair),
        Err(status) => status,
    }
}
