//! The answer to a line.

ghost use Rattle.std.specs.Prelude.{◌+◌, ◌<◌, ◌≤◌, ◌^◌, length, option_map};
ghost use Rattle.tta_ops.specs.Set.{stated};
ghost use Rattle.tta_report.specs.Replies.{reply_text};
ghost use Rattle.tta_report.specs.declared.reply.Reply.TheVariants as reply;
ghost use Rattle.tta_sim.specs.Held.{IsRunOf};
ghost use Rattle.tta_debug.specs.Debugged.{Debugged, command, not_there};
ghost use Rattle.tta_debug.specs.Sessions.{Follows, PutsLine};
ghost use Rattle.tta_prompt.specs.Texts.{own_text};
ghost use Rattle.tta_prompt.specs.Prompted.{shown, prompt_line};
ghost use Rattle.tta_prompt.specs.Endings.{AnswersLine, PutsText};

use crate::PromptError;
use crate::own::{Own, read_own};
use crate::text::text_of;
use std::alloc::Global;
use tta_debug::{Basis, NOT_THERE, Session, take_line};
use tta_ports::{Failed, Sink};
use tta_report::{Reply, put_reply};

/// Puts a text.
fn put_text<S: Sink>(sink: &mut S, text: &[u8]) -> Result<(), Failed>
    ensures { PutsLine text.now (S.output sink.old) (S.output sink.new) result }
{
    sink.put(text)
}

/// Puts the refusal of a place where there is nothing.
fn put_refusal<S: Sink>(sink: &mut S) -> Result<(), Failed>
    ensures { PutsLine (reply_text (reply.Refused not_there)) (S.output sink.old)
        (S.output sink.new) result }
{
    put_reply(sink, &Reply::Refused(NOT_THERE))
}

/// Puts a text, or the refusal of a place where there is none.
fn put_shown<S: Sink>(sink: &mut S, text: Option<Vec<u8>>) -> Result<(), Failed>
    ensures { PutsText (option_map (λ v. v.items) text) (S.output sink.old)
        (S.output sink.new) result }
{
    match text {
        Some(text) => put_text(sink, text.as_slice()),
        None => put_refusal(sink),
    }
}

/// Puts what a line asks at a prompt alone. The session stays as it is.
fn show<S: Sink>(
    alloc: Global,
    session: &Session,
    own: Own,
    basis: &Basis<'_>,
    sink: &mut S,
) -> Result<bool, PromptError>
    ensures { let on = basis.now in
        let U = stated unit_meaning on.units.now in
        (d : Debugged) → Follows on.input.now session.now d
        → AnswersLine on.input.now d (shown d (own_text U on.m.now on.code.now d.state own))
        session.now (S.output sink.old) (S.output sink.new) result }
{
    match text_of(alloc, basis, session.sim(), own) {
        Ok(text) => match put_shown(sink, text) {
            Ok(()) => Ok(true),
            Err(Failed) => Err(PromptError::SinkFailed),
        },
        Err(_) => Err(PromptError::NoMemory),
    }
}

/// Carries out a line as a script's.
fn carry_out<S: Sink>(
    session: &mut Session,
    line: &[u8],
    basis: &Basis<'_>,
    sink: &mut S,
) -> Result<bool, PromptError>
    requires loaded { IsRunOf basis.now.m.now basis.now.code.now session.old.held }
    requires few { session.old.held.cycle < 2 ^ 61 }
    requires short { length line.now ≤ 2 ^ 24 }
    ensures loaded { IsRunOf basis.now.m.now basis.now.code.now session.new.held }
    ensures counted { session.new.held.cycle < session.old.held.cycle + 2 ^ 32 }
    ensures answers { let on = basis.now in
        let U = stated unit_meaning on.units.now in
        (d : Debugged) → Follows on.input.now session.old d
        → AnswersLine on.input.now d (command U on.m.now on.code.now line.now d) session.new
        (S.output sink.old) (S.output sink.new) result }
{
    match take_line(session, line, basis, sink) {
        Ok(goes) => Ok(goes),
        Err(Failed) => Err(PromptError::SinkFailed),
    }
}

/// Carries out a line, and puts its reply or its refusal. It answers whether the session goes on: it
/// does but after `quit`.
pub fn answer_line<S: Sink>(
    alloc: Global,
    session: &mut Session,
    line: &[u8],
    basis: &Basis<'_>,
    sink: &mut S,
) -> Result<bool, PromptError>
    requires loaded { IsRunOf basis.now.m.now basis.now.code.now session.old.held }
    requires few { session.old.held.cycle < 2 ^ 61 }
    requires short { length line.now ≤ 2 ^ 24 }
    ensures loaded { IsRunOf basis.now.m.now basis.now.code.now session.new.held }
    ensures counted { session.new.held.cycle < session.old.held.cycle + 2 ^ 32 }
    ensures answers { let on = basis.now in
        let U = stated unit_meaning on.units.now in
        (d : Debugged) → Follows on.input.now session.old d
        → AnswersLine on.input.now d (prompt_line U on.m.now on.code.now line.now d) session.new
        (S.output sink.old) (S.output sink.new) result }
{
    match read_own(line) {
        Some(own) => show(alloc, session, own, basis, sink),
        None => carry_out(session, line, basis, sink),
    }
}
