//! The session, line by line.

ghost use Rattle.std.specs.Prelude.{◌<◌, ◌^◌};
ghost use Rattle.tta_ops.specs.Set.{stated};
ghost use Rattle.tta_sim.specs.Held.{IsRunOf};
ghost use Rattle.tta_debug.specs.Debugged.{Debugged};
ghost use Rattle.tta_debug.specs.Sessions.{Follows};
ghost use Rattle.tta_prompt.specs.Endings.{Prompts};

use crate::PromptError;
use crate::answer::answer_line;
use std::alloc::Global;
use tta_debug::{Basis, Session};
use tta_ports::Sink;
use tta_stdin::{LineError, Lines};

/// How many bytes all lines together may have, each with its newline: 16 MiB.
const MOST_BYTES: u64 = 16_777_216;

/// Carries out the lines that come, each of which is a command, and puts the reply or the refusal of
/// each before the next one is asked for, up to a line that is `quit` or to the end of the lines. The
/// input of the run is that of all calls of the session.
///
/// It answers `LinesFailed` where the lines did, `TooLong` where all of them together have more than
/// 16 MiB, `SinkFailed` where the output failed, and `NoMemory` where there was none for a line or for
/// what it asks to see. Whichever put fails, the line that it answers is the last that has come, and
/// the session is as the text that failed found it; else it is as the answered lines left it.
pub fn run_prompt<L: Lines, S: Sink>(
    alloc: Global,
    session: &mut Session,
    basis: &Basis<'_>,
    lines: &mut L,
    sink: &mut S,
) -> Result<(), PromptError>
    requires loaded { IsRunOf basis.now.m.now basis.now.code.now session.old.held }
    requires few { session.old.held.cycle < 2 ^ 60 }
    ensures loaded { IsRunOf basis.now.m.now basis.now.code.now session.new.held }
    ensures ends { let on = basis.now in
        let U = stated unit_meaning on.units.now in
        (d : Debugged) → Follows on.input.now session.old d
        → Prompts U on.m.now on.code.now on.input.now d session.new
        (L.come lines.old) (L.come lines.new) (S.output sink.old) (S.output sink.new) result }
{
    let mut left = MOST_BYTES;
    'lines: loop {
        let line = match lines.next_line(left) {
            Ok(Some(line)) => line,
            Ok(None) => return Ok(()),
            Err(LineError::Failed) => return Err(PromptError::LinesFailed),
            Err(LineError::TooLong) => return Err(PromptError::TooLong),
            Err(LineError::NoMemory) => return Err(PromptError::NoMemory),
        };
        left = left.saturating_sub(line.len() as u64 + 1);
        let answer = answer_line(alloc, session, line.as_slice(), basis, sink);
        match answer {
            Ok(true) => {}
            Ok(false) => return Ok(()),
            Err(error) => return Err(error),
        }
    }
}
