//! A script, line by line.

ghost use Rattle.std.specs.Prelude.{◌≡◌, ◌+◌, ◌<◌, ◌≤◌, ◌^◌, ◌∷◌, length, is_err, IfErr};
ghost use Rattle.tta_ops.specs.Set.{stated};
ghost use Rattle.tta_sim.specs.Held.{IsRunOf};
ghost use Rattle.tta_ports.specs.Faults.{CountsFault};
ghost use Rattle.tta_debug.specs.Debugged.{Debugged, command, session as session_of};
ghost use Rattle.tta_debug.specs.Sessions.{Follows, IsStopped};
ghost use Rattle.tta_debug.specs.Scripts.{TakesLine, TakesScript, lines_of, line_len as len_of};
ghost use Rattle.tta_debug.specs.Scripts.{line_says, script_says};

use crate::basis::Basis;
use crate::say::put;
use crate::session::Session;
use crate::told::{CommandError, Told};
use tta_ports::{Failed, Sink};
use tta_report::Reply;

/// Carries out a line, which is a command, and puts its reply or its refusal. It takes no memory, and
/// answers whether the session goes on: it does but after `quit`.
///
/// It answers `Failed` at the first line of a reply at which the sink does, and only there: the
/// sink's count of faults shows it. The session is then as this line found it.
pub fn take_line<S: Sink>(
    session: &mut Session,
    line: &[u8],
    basis: &Basis<'_>,
    sink: &mut S,
) -> Result<bool, Failed>
    requires loaded { IsRunOf basis.now.m.now basis.now.code.now session.old.held }
    requires few { session.old.held.cycle < 2 ^ 61 }
    requires short { length line.now ≤ 2 ^ 24 }
    ensures loaded { IsRunOf basis.now.m.now basis.now.code.now session.new.held }
    ensures counted { session.new.held.cycle < session.old.held.cycle + 2 ^ 32 }
    ensures told { let on = basis.now in
        let U = stated unit_meaning on.units.now in
        (d : Debugged) → Follows on.input.now session.old d
        → TakesLine on.input.now d (command U on.m.now on.code.now line.now d) session.new
        (S.output sink.old)
        (S.output sink.new) result }
    ensures stopped { let on = basis.now in
        let U = stated unit_meaning on.units.now in
        (d : Debugged) → Follows on.input.now session.old d
        → IfErr result (λ e. IsStopped on.input.now
        (line_says d (command U on.m.now on.code.now line.now d)) session.new
        (S.output sink.old)
        (S.output sink.new)) }
    ensures cause { CountsFault (is_err result) (S.output sink.old).faults
        (S.output sink.new).faults }
{
    match session.command(line, basis.m, basis.code, basis.units, basis.input, sink) {
        Ok(Told::More) => Ok(true),
        Ok(Told::Bye) => Ok(false),
        Err(CommandError::SinkFailed) => Err(Failed),
        Err(CommandError::Refused(number)) => match put(sink, &Reply::Refused(number)) {
            Ok(()) => Ok(true),
            Err(failed) => Err(failed),
        },
    }
}

/// The first line of some bytes, and the bytes after it.
#[derive(Clone, Copy)]
struct Cut<'t> {
    line: &'t [u8],
    rest: &'t [u8],
}

/// How many bytes stand before the first newline.
fn line_len(bytes: &[u8]) -> usize
    ensures len { result ≡ len_of bytes.now }
    ensures within { result ≤ length bytes.now }
{
    bytes.iter().take_while(|byte| **byte != b'\n').count()
}

/// The first line of some bytes, without the newline that ends it.
fn cut_line<'t>(bytes: &'t [u8]) -> Cut<'t>
    requires { 0 < length bytes.now }
    ensures cut { lines_of bytes.now ≡ result.line.now ∷ lines_of result.rest.now }
    ensures short { length result.line.now ≤ length bytes.now }
    ensures less { length result.rest.now < length bytes.now }
{
    let end = line_len(bytes);
    if end == bytes.len() {
        return Cut {
            line: bytes,
            rest: &[],
        };
    }
    Cut {
        line: &bytes[..end],
        rest: &bytes[end + 1..],
    }
}

/// Carries out the lines of a script, each of which is a command and ends at a newline, and puts
/// their replies and refusals, up to a line that is `quit` or to the script's end. The input is that
/// of all calls of the session. It takes no memory.
///
/// It answers `Failed` at the first line of a reply at which the sink does, and only there: the
/// sink's count of faults shows it. The session is then as this line found it.
pub fn run_script<S: Sink>(
    session: &mut Session,
    script: &[u8],
    basis: &Basis<'_>,
    sink: &mut S,
) -> Result<(), Failed>
    requires loaded { IsRunOf basis.now.m.now basis.now.code.now session.old.held }
    requires few { session.old.held.cycle < 2 ^ 60 }
    requires short { length script.now ≤ 2 ^ 24 }
    ensures loaded { IsRunOf basis.now.m.now basis.now.code.now session.new.held }
    ensures replies { let on = basis.now in
        let said = session_of (stated unit_meaning on.units.now) on.m.now on.code.now in
        (d : Debugged) → Follows on.input.now session.old d
        → TakesScript on.input.now (said (lines_of script.now) d) session.new
        (S.output sink.old)
        (S.output sink.new) result }
    ensures stopped { let on = basis.now in
        let says = script_says (stated unit_meaning on.units.now) on.m.now on.code.now in
        (d : Debugged) → Follows on.input.now session.old d
        → IfErr result (λ e. IsStopped on.input.now (says (lines_of script.now) d) session.new
        (S.output sink.old)
        (S.output sink.new)) }
    ensures cause { CountsFault (is_err result) (S.output sink.old).faults
        (S.output sink.new).faults }
{
    let mut rest = script;
    'lines: while !rest.is_empty() {
        let cut = cut_line(rest);
        let goes = take_line(session, cut.line, basis, sink)?;
        if !goes {
            return Ok(());
        }
        rest = cut.rest;
    }
    Ok(())
}
