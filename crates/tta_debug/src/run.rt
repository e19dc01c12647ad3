//! The cycles of a session.

ghost use Rattle.std.specs.Prelude.{◌≡◌, ◌+◌, ◌<◌, ◌≤◌, ◌^◌, ◌&&◌, drop, slice_get, is_err, Ok};
ghost use Rattle.tta_ops.specs.Set.{stated};
ghost use Rattle.tta_ports.specs.Faults.{CountsFault};
ghost use Rattle.tta_code.specs.Cycle.{next as next_state};
ghost use Rattle.tta_list.specs.Input.{left};
ghost use Rattle.tta_sim.specs.Held.{IsRunOf};
ghost use Rattle.tta_code.specs.Cycle.{State};
ghost use Rattle.tta_sim.specs.Held.{Stands};
ghost use Rattle.tta_debug.specs.Debugged.{Debugged, cycles, is_at_stop, ran, stopped};
ghost use Rattle.tta_debug.specs.Sessions.{Does, Keeps};
ghost use Rattle.tta_debug.specs.Sessions.{Follows, Cycles, PutsWord, Runs};

use crate::basis::Basis;
use crate::query::standing;
use crate::say::{put, say};
use crate::session::Session;
use crate::told::{CommandError, Told};
use tta_ports::{Failed, Sink};
use tta_report::Reply;
use tta_sim::CycleStep;

/// What became of a cycle.
#[derive(Clone, Copy)]
pub enum After {
    /// It was carried out.
    On,
    /// The run is over.
    Over,
    /// It waits for a word of the input.
    Waits,
}

/// How many words of the input are taken, where the next was taken or was not.
#[tactic(auto, using(crate::proofs::Inputs::drop_one_more, crate::proofs::Inputs::drop_none_more))]
fn count_taken(taken: usize, took: bool, input: &[u32]) -> usize
    ensures { drop result input.now ≡ left took (drop taken input.now) }
{
    if !took {
        return taken;
    }
    if taken < input.len() {
        taken + 1
    } else {
        taken
    }
}

/// The next word of the input.
fn next_of(input: &[u32], taken: usize) -> Option<u32>
    ensures { result ≡ slice_get (drop taken input.now) 0 }
{
    input.get(taken).copied()
}

/// Puts the line of a word, if there is one.
fn put_word<S: Sink>(sink: &mut S, word: Option<u32>) -> Result<(), Failed>
    ensures puts { PutsWord word (S.output sink.old)
        (S.output sink.new) result }
    ensures cause { CountsFault (is_err result) (S.output sink.old).faults
        (S.output sink.new).faults }
{
    match word {
        None => Ok(()),
        Some(word) => put(sink, &Reply::Out(word)),
    }
}

/// Carries out one cycle, and puts its word, if any.
fn cycle<S: Sink>(session: &mut Session, basis: &Basis<'_>, sink: &mut S) -> Result<After, Failed>
    requires loaded { IsRunOf basis.now.m.now basis.now.code.now session.old.held }
    requires few { session.old.held.cycle < 2 ^ 62 }
    ensures loaded { IsRunOf basis.now.m.now basis.now.code.now session.new.held }
    ensures counted { session.new.held.cycle ≤ session.old.held.cycle + 1 }
    ensures cycles { let on = basis.now in
        let step = next_state (stated unit_meaning on.units.now) on.m.now on.code.now in
        (d : Debugged) → Follows on.input.now session.old d
        → Cycles on.input.now step d session.new
        (S.output sink.old)
        (S.output sink.new) result }
    ensures cause { CountsFault (is_err result) (S.output sink.old).faults
        (S.output sink.new).faults }
{
    match session.sim.cycle(
        basis.m,
        basis.code,
        basis.units,
        next_of(basis.input, session.taken),
    ) {
        CycleStep::Halted => Ok(After::Over),
        CycleStep::Fault(_) => Ok(After::Over),
        CycleStep::Waiting => Ok(After::Waits),
        CycleStep::Ran { put: word, took } => {
            session.taken = count_taken(session.taken, took, basis.input);
            match put_word(sink, word) {
                Ok(()) => Ok(After::On),
                Err(failed) => Err(failed),
            }
        }
    }
}

/// Carries out at most so many cycles, as many as there are until the run is over or waits for a
/// word of the input, which it answers, or, where it is to, until the next instruction has a
/// breakpoint. Each word is put on a line of its own as it comes.
pub fn run_cycles<S: Sink>(
    session: &mut Session,
    basis: &Basis<'_>,
    sink: &mut S,
    count: u32,
    to_stop: bool,
) -> Result<bool, Failed>
    requires loaded { IsRunOf basis.now.m.now basis.now.code.now session.old.held }
    requires few { session.old.held.cycle < 2 ^ 61 }
    ensures loaded { IsRunOf basis.now.m.now basis.now.code.now session.new.held }
    ensures counted { session.new.held.cycle ≤ session.old.held.cycle + count }
    ensures runs { let on = basis.now in
        let step = next_state (stated unit_meaning on.units.now) on.m.now on.code.now in
        (d : Debugged) → Follows on.input.now session.old d
        → Runs on.input.now (cycles step (λ e. to_stop && is_at_stop e) count d) session.new
        (S.output sink.old)
        (S.output sink.new) result }
    ensures cause { CountsFault (is_err result) (S.output sink.old).faults
        (S.output sink.new).faults }
{
    let mut left = count;
    'cycles: while left > 0 {
        match cycle(session, basis, sink)? {
            After::Over => return Ok(false),
            After::Waits => return Ok(true),
            After::On => {}
        }
        if session.stops_here(to_stop) {
            return Ok(false);
        }
        left -= 1;
    }
    Ok(false)
}

/// What stands where cycles have stopped.
fn stopped_at(session: &Session, waits: bool) -> Reply
    ensures { (s : State) → Stands session.now.held s → result ≡ stopped waits s }
{
    if waits {
        Reply::Waiting {
            pc: session.sim.pc(),
            cycle: session.sim.cycles(),
        }
    } else {
        standing(&session.sim)
    }
}

/// Carries out at most so many cycles, puts their words, and then how the run stands.
pub fn run<S: Sink>(
    session: &mut Session,
    basis: &Basis<'_>,
    sink: &mut S,
    count: u32,
    to_stop: bool,
) -> Result<Told, CommandError>
    requires loaded { IsRunOf basis.now.m.now basis.now.code.now session.old.held }
    requires few { session.old.held.cycle < 2 ^ 61 }
    ensures loaded { IsRunOf basis.now.m.now basis.now.code.now session.new.held }
    ensures counted { session.new.held.cycle ≤ session.old.held.cycle + count }
    ensures does { let on = basis.now in
        let step = next_state (stated unit_meaning on.units.now) on.m.now on.code.now in
        (d : Debugged) → Follows on.input.now session.old d
        → Does on.input.now (Ok (ran (cycles step (λ e. to_stop && is_at_stop e) count d)))
        session.new (S.output sink.old)
        (S.output sink.new) result }
    ensures keeps { Keeps session.old session.new
        (S.output sink.old)
        (S.output sink.new) result }
{
    match run_cycles(session, basis, sink, count, to_stop) {
        Ok(waits) => say(sink, &stopped_at(session, waits), Told::More),
        Err(Failed) => Err(CommandError::SinkFailed),
    }
}
