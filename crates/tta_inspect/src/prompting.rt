//! The command `prompt`: a session of the debugger over a run of the code of an image, whose commands come
//! line by line.

ghost use Rattle.std.specs.Prelude.{◌≡◌, ◌<◌, ◌^◌, length, option_map, IfOk};
ghost use Rattle.tta_ops.specs.Set.{stated};
ghost use Rattle.tta_code.specs.Legal.{IsLegalCode};
ghost use Rattle.tta_sim.specs.Held.{IsRunOf};
ghost use Rattle.tta_debug.specs.Debugged.{Debugged};
ghost use Rattle.tta_debug.specs.Sessions.{Follows};
ghost use Rattle.tta_inspect.specs.Prompts.{FilesEnd, OpensPrompt};
ghost use Rattle.tta_inspect.specs.Prompts.{EndsAs, SessionEnds};

use crate::names::PromptRequest;
use std::alloc::Global;
use tta_code_run::load_code;
use tta_debug::{Basis, Session};
use tta_load::{CodePair, Given, Status, data_words, given_files, image_pair};
use tta_ops::UnitSet;
use tta_ports::{Files, Sink};
use tta_prompt::{PromptError, run_prompt};
use tta_stdin::Lines;

/// What a session is over: code for a machine, and what its run is given.
#[derive(Drop)]
struct Ready {
    pair: CodePair,
    given: Given,
}

/// All that a session is over, read from the files that the words name.
fn read_all<F: Files>(
    alloc: Global,
    units: &UnitSet,
    files: &mut F,
    request: &PromptRequest<'_>,
) -> Result<Ready, Status>
    ensures ends { FilesEnd (stated unit_meaning units.now)
        request.now.machine.now request.now.image.now request.now.input.now
        (option_map (λ s. s.now) request.now.stream) (F.world files.old) (F.world files.new)
        (λ r. r.pair.file) (λ r. r.pair.whole)
        (λ r. r.given.memory.items) (λ r. r.given.words.items) result }
    ensures size { IfOk result
        (λ r. length r.given.memory.items ≡ r.pair.file.machine.data_words) }
    ensures legal { IfOk result
        (λ r. IsLegalCode r.pair.file.machine r.pair.whole.code) }
{
    let pair = image_pair(alloc, units, files, request.machine, request.image)?;
    let space = data_words(&pair.file.machine);
    let given = given_files(alloc, files, request.input, request.stream, 4, space)?;
    Ok(Ready { pair, given })
}

/// Carries out a session, and answers how the command ends.
fn session_to_status<L: Lines, S: Sink>(
    alloc: Global,
    session: &mut Session,
    basis: &Basis<'_>,
    lines: &mut L,
    sink: &mut S,
) -> Status
    requires loaded { IsRunOf basis.now.m.now basis.now.code.now session.old.held }
    requires few { session.old.held.cycle < 2 ^ 60 }
    ensures { let on = basis.now in
        let U = stated unit_meaning on.units.now in
        (d : Debugged) → Follows on.input.now session.old d
        → EndsAs U on.m.now on.code.now on.input.now d (L.come lines.old) (L.come lines.new)
        (S.output sink.old) (S.output sink.new) result }
{
    match run_prompt(alloc, session, basis, lines, sink) {
        Ok(()) => Status::Ok,
        Err(PromptError::LinesFailed) => Status::ReadFault { word: 0 },
        Err(PromptError::TooLong) => Status::TooLong { word: 0 },
        Err(PromptError::NoMemory) => Status::NoMemory,
        Err(PromptError::SinkFailed) => Status::WriteFault,
    }
}

/// Carries out a session over the run of code from what it is given.
fn session_of<L: Lines, S: Sink>(
    alloc: Global,
    units: &UnitSet,
    lines: &mut L,
    sink: &mut S,
    pair: &CodePair,
    given: Given,
) -> Status
    requires size { length given.memory.items ≡ pair.now.file.machine.data_words }
    requires legal { IsLegalCode pair.now.file.machine pair.now.whole.code }
    ensures { let U = stated unit_meaning units.now in
        SessionEnds U pair.now.file pair.now.whole given.memory.items given.words.items
        (L.come lines.old) (L.come lines.new) (S.output sink.old) (S.output sink.new) result }
{
    let Given { memory, words } = given;
    match load_code(alloc, &pair.file.machine, &pair.whole, memory) {
        Ok(sim) => {
            let mut session = Session::new(sim);
            let basis = Basis {
                m: &pair.file.machine,
                code: &pair.whole.code,
                units,
                input: words.as_slice(),
            };
            session_to_status(alloc, &mut session, &basis, lines, sink)
        }
        Err(_) => Status::NoMemory,
    }
}

/// Carries out the session that is asked for: each line that comes is a command over the run of the
/// image on the machine of the file `machine`, from the data words of the file `input` and with the
/// words of the file `stream`, where it is named, as the input. It is answered before the next one is
/// asked for.
pub fn prompt_image<F: Files, L: Lines, S: Sink>(
    alloc: Global,
    units: &UnitSet,
    files: &mut F,
    lines: &mut L,
    sink: &mut S,
    request: &PromptRequest<'_>,
) -> Status
    ensures { OpensPrompt (stated unit_meaning units.now)
        request.now.machine.now request.now.image.now request.now.input.now
        (option_map (λ s. s.now) request.now.stream) (F.world files.old) (F.world files.new)
        (L.come lines.old) (L.come lines.new) (S.output sink.old) (S.output sink.new) result }
{
    match read_all(alloc, units, files, request) {
        Ok(Ready { pair, given }) => session_of(alloc, units, lines, sink, &pair, given),
        Err(status) => status,
    }
}
