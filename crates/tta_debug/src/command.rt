//! The commands of a session.

ghost use Rattle.std.specs.Prelude.{◌≡◌, ◌+◌, ◌<◌, ◌≤◌, ◌^◌, ℕ, List, Ok, length};
ghost use Rattle.tta_ops.specs.Set.{stated};
ghost use Rattle.tta_sim.specs.Held.{IsRunOf};
ghost use Rattle.tta_debug.specs.Commands.{plain_asked, plain_query};
ghost use Rattle.tta_debug.specs.Debugged.{Debugged, answer, command, told, stops_set};
ghost use Rattle.tta_debug.specs.Debugged.{with_stop, without_stop, seen as seen_of, in_flight};
ghost use Rattle.tta_debug.specs.Sessions.{Follows, Does, Keeps};

use crate::asked::{Asked, Query, read_asked};
use crate::basis::Basis;
use crate::flight::put_flight;
use crate::query::seen;
use crate::run::run;
use crate::say::say;
use crate::session::Session;
use crate::told::{CommandError, NO_COMMAND, NOT_THERE, Told};
use tta_arch::Machine;
use tta_code::Code;
use tta_ops::UnitSet;
use tta_ports::{Failed, Sink};
use tta_report::Reply;

/// Sets a breakpoint.
#[tactic(auto, using(crate::proofs::Saying::keeps_said))]
fn break_at<S: Sink>(
    session: &mut Session,
    code: &Code,
    sink: &mut S,
    address: u32,
) -> Result<Told, CommandError>
    ensures held { session.new.held ≡ session.old.held }
    ensures does { (input : List ℕ) (d : Debugged) → Follows input session.old d
        → Does input (stops_set d (with_stop (length code.now.words) d.stops address)) session.new
        (S.output sink.old)
        (S.output sink.new) result }
    ensures keeps { Keeps session.old session.new
        (S.output sink.old)
        (S.output sink.new) result }
{
    match session.set_stop(code, address) {
        Ok(()) => say(sink, &Reply::Done, Told::More),
        Err(number) => Err(CommandError::Refused(number)),
    }
}

/// Takes a breakpoint away.
#[tactic(auto, using(crate::proofs::Saying::keeps_said))]
fn delete_at<S: Sink>(
    session: &mut Session,
    sink: &mut S,
    address: u32,
) -> Result<Told, CommandError>
    ensures held { session.new.held ≡ session.old.held }
    ensures does { (input : List ℕ) (d : Debugged) → Follows input session.old d
        → Does input (stops_set d (without_stop d.stops address)) session.new
        (S.output sink.old)
        (S.output sink.new) result }
    ensures keeps { Keeps session.old session.new
        (S.output sink.old)
        (S.output sink.new) result }
{
    match session.delete_stop(address) {
        Ok(()) => say(sink, &Reply::Done, Told::More),
        Err(number) => Err(CommandError::Refused(number)),
    }
}

/// Shows what is asked for.
#[tactic(auto, using(crate::proofs::Saying::keeps_said))]
fn ask<S: Sink>(
    session: &Session,
    m: &Machine,
    code: &Code,
    sink: &mut S,
    query: &Query,
) -> Result<Told, CommandError>
    requires { IsRunOf m.now code.now session.now.held }
    ensures does { (input : List ℕ) (d : Debugged) → Follows input session.now d
        → Does input (told d (seen_of m.now d.state (plain_query query.now))) session.now
        (S.output sink.old)
        (S.output sink.new) result }
    ensures keeps { Keeps session.now session.now
        (S.output sink.old)
        (S.output sink.new) result }
{
    match seen(session.sim(), m, query) {
        Some(reply) => say(sink, &reply, Told::More),
        None => Err(CommandError::Refused(NOT_THERE)),
    }
}

/// Shows the results in flight.
#[tactic(auto, using(crate::proofs::Saying::keeps_said))]
fn flight<S: Sink>(
    session: &Session,
    m: &Machine,
    code: &Code,
    sink: &mut S,
) -> Result<Told, CommandError>
    requires loaded { IsRunOf m.now code.now session.now.held }
    requires few { session.now.held.cycle < 2 ^ 61 }
    ensures does { (input : List ℕ) (d : Debugged) → Follows input session.now d
        → Does input (Ok (in_flight m.now d)) session.now
        (S.output sink.old)
        (S.output sink.new) result }
    ensures keeps { Keeps session.now session.now
        (S.output sink.old)
        (S.output sink.new) result }
{
    match put_flight(sink, session.sim(), m) {
        Ok(()) => say(sink, &Reply::Done, Told::More),
        Err(Failed) => Err(CommandError::SinkFailed),
    }
}

/// Carries out a command.
#[tactic(auto, using(crate::proofs::Saying::keeps_said))]
fn carry_out<S: Sink>(
    session: &mut Session,
    asked: &Asked,
    basis: &Basis<'_>,
    sink: &mut S,
) -> Result<Told, CommandError>
    requires loaded { IsRunOf basis.now.m.now basis.now.code.now session.old.held }
    requires few { session.old.held.cycle < 2 ^ 61 }
    ensures loaded { IsRunOf basis.now.m.now basis.now.code.now session.new.held }
    ensures counted { session.new.held.cycle < session.old.held.cycle + 2 ^ 32 }
    ensures does { let on = basis.now in
        let U = stated unit_meaning on.units.now in
        (d : Debugged) → Follows on.input.now session.old d
        → Does on.input.now (answer U on.m.now on.code.now d (plain_asked asked.now)) session.new
        (S.output sink.old)
        (S.output sink.new) result }
    ensures keeps { Keeps session.old session.new
        (S.output sink.old)
        (S.output sink.new) result }
{
    match asked {
        Asked::Nothing => Ok(Told::More),
        Asked::Break { address } => break_at(session, basis.code, sink, *address),
        Asked::Delete { address } => delete_at(session, sink, *address),
        Asked::Step { count } => run(session, basis, sink, *count, false),
        Asked::Go { count } => run(session, basis, sink, *count, true),
        Asked::Flight => flight(session, basis.m, basis.code, sink),
        Asked::Ask(query) => ask(session, basis.m, basis.code, sink, query),
        Asked::Quit => say(sink, &Reply::Bye, Told::Bye),
    }
}

impl Session {
    /// Carries out the command that the words of a line are, and puts its reply, line by line. The
    /// input is that of all calls of the session. It takes no memory.
    ///
    /// It answers `Bye` where the command is `quit`. A refused command leaves the session as it
    /// was, with nothing put. Where the sink fails, which its count of faults shows, it has taken
    /// the lines before and a prefix of the line at which it failed; the session is as after the
    /// cycle that put this word, and else the whole command was carried out.
    pub fn command<S: Sink>(
        &mut self,
        line: &[u8],
        m: &Machine,
        code: &Code,
        units: &UnitSet,
        input: &[u32],
        sink: &mut S,
    ) -> Result<Told, CommandError>
        requires loaded { IsRunOf m.now code.now self.old.held }
        requires few { self.old.held.cycle < 2 ^ 61 }
        requires short { length line.now ≤ 2 ^ 24 }
        ensures loaded { IsRunOf m.now code.now self.new.held }
        ensures counted { self.new.held.cycle < self.old.held.cycle + 2 ^ 32 }
        ensures does { let U = stated unit_meaning units.now in
            (d : Debugged) → Follows input.now self.old d
            → Does input.now (command U m.now code.now line.now d) self.new
            (S.output sink.old)
            (S.output sink.new) result }
        ensures keeps { Keeps self.old self.new
            (S.output sink.old)
            (S.output sink.new) result }
    {
        let Some(asked) = read_asked(line) else {
            return Err(CommandError::Refused(NO_COMMAND));
        };
        let basis = Basis {
            m,
            code,
            units,
            input,
        };
        carry_out(self, &asked, &basis, sink)
    }
}
