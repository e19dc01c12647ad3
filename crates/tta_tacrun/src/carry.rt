//! One step.

ghost use Rattle.std.specs.Prelude.{◌≡◌, ℕ, List, ◌+◌, ◌<◌, ◌^◌, ◌∷◌, length};
ghost use Rattle.std.specs.Prelude.{Some, OnSome, IsSome, option_copied, slice_index, false};
ghost use Rattle.std.specs.Option.{option_map_or};
ghost use Rattle.tta_ops.specs.Set.{stated};
ghost use Rattle.tta_ops.specs.Units.{Units};
ghost use Rattle.tta_program.specs.Rules.{IsProgram};
ghost use Rattle.tta_program.specs.Sequential.{State, operand, step_at, takes, returns};
ghost use Rattle.tta_program.specs.Sequential.{carry_out};
ghost use Rattle.tta_program.specs.Sequential.{take_value as value_taken};
ghost use Rattle.tta_list.specs.Input.{left};
ghost use Rattle.tta_tacrun.specs.Run.{AreCallsOf, is_silent, state_of, put, destination};

use crate::basis::Basis;
use crate::calls::Calls;
use crate::entry::Entry;
use crate::phase::Phase;
use crate::relations::Relations;
use crate::words::Words;
use tta_ops::UnitSet;
use tta_program::{Program, Src, Step};

/// The step that a call has come to, if there is one.
pub fn step_of(p: &Program, call: Entry) -> Option<&Step>
    ensures value { option_copied result ≡ step_at p.now call.proc call.at }
    ensures within { OnSome result (call.at + 1 < 2 ^ 64) }
    ensures rules { IsProgram p.now }
{
    match p.procs.as_slice().get(call.proc) {
        Some(q) => q.steps.as_slice().get(call.at),
        None => None,
    }
}

/// Whether a step takes a word of the input.
pub fn takes(step: &Step) -> bool
    ensures { result ≡ takes step.now }
{
    match step {
        Step::Take { .. } => true,
        _ => false,
    }
}

/// The variable that takes the value that a call returns, where the step is a call that has one.
fn destination_of(step: &Step) -> Option<u32>
    ensures { result ≡ destination step.now }
{
    match step {
        Step::Invoke { d, .. } => *d,
        _ => None,
    }
}

/// The innermost call, which stands at a call, takes the value that this returned.
fn take_value(calls: &mut Calls, p: &Program, value: u32)
    requires loaded { AreCallsOf p.now calls.old }
    requires called { IsSome (step_at p.now calls.old.top.proc calls.old.top.at) }
    ensures loaded { AreCallsOf p.now calls.new }
    ensures taken { (s : State)
        → let step = step_at p.now calls.old.top.proc calls.old.top.at in
        record s { stack = calls.new.top ∷ calls.new.below }
        ≡ value_taken s calls.old.top calls.old.below value step }
{
    let call = calls.top();
    match destination_of(step_of(p, call).unwrap()) {
        Some(d) => calls.assign(d, value),
        None => calls.go_to(call.at + 1),
    }
}

/// The innermost call ends with a value.
fn give_back(calls: &mut Calls, p: &Program, value: u32) -> Phase
    requires { AreCallsOf p.now calls.old }
    ensures loaded { AreCallsOf p.now calls.new }
    ensures returned { (memory rest output : List ℕ) (steps : ℕ)
        → let s = state_of Phase.Running calls.old memory rest output steps in
        state_of result calls.new memory rest output steps ≡ returns p.now s calls.old.below value }
{
    if !calls.leave() {
        return Phase::Returned;
    }
    take_value(calls, p, value);
    Phase::Running
}

/// The innermost call ends with the word of an operand, and with 0 where there is none.
fn give_back_of(calls: &mut Calls, p: &Program, s: Option<Src>) -> Phase
    requires { AreCallsOf p.now calls.old }
    ensures loaded { AreCallsOf p.now calls.new }
    ensures returned { (memory rest output : List ℕ) (steps : ℕ)
        → let running = state_of Phase.Running calls.old memory rest output steps in
        let value = option_map_or (operand calls.old.top.vars) s 0 in
        state_of result calls.new memory rest output steps
        ≡ returns p.now running calls.old.below value }
{
    let value = match s {
        Some(s) => calls.value(s),
        None => 0,
    };
    give_back(calls, p, value)
}

/// The innermost call has come to the end of its procedure, which gives back 0.
fn end_call(calls: &mut Calls, p: &Program) -> Phase
    requires { AreCallsOf p.now calls.old }
    ensures loaded { AreCallsOf p.now calls.new }
    ensures returned { (memory rest output : List ℕ) (steps : ℕ)
        → let s = state_of Phase.Running calls.old memory rest output steps in
        state_of result calls.new memory rest output steps ≡ returns p.now s calls.old.below 0 }
{
    give_back(calls, p, 0)
}

/// The word of an operand of the innermost call, whose next step comes.
fn show(calls: &mut Calls, v: Src) -> u32
    requires { calls.old.top.at + 1 < 2 ^ 64 }
    ensures word { result ≡ operand calls.old.top.vars v }
    ensures next { let f = calls.old.top in
        calls.new ≡ record calls.old { top = record f { at = f.at + 1 } } }
{
    let call = calls.top();
    calls.go_to(call.at + 1);
    calls.value(v)
}

/// Carries out a step that outputs or takes a word, or begins or ends a call, where `next` is the
/// next word of the input. It answers whether the run goes on, and the word that is output, if any.
fn carry_any(calls: &mut Calls, p: &Program, step: &Step, next: u32) -> (Phase, Option<u32>)
    requires rules { IsProgram p.now }
    requires loaded { AreCallsOf p.now calls.old }
    requires at { step_at p.now calls.old.top.proc calls.old.top.at ≡ Some step.now }
    requires more { calls.old.top.at + 1 < 2 ^ 64 }
    requires loud { is_silent step.now ≡ false }
    ensures loaded { AreCallsOf p.now calls.new }
    ensures carried { (U : Units) (memory rest output : List ℕ) (steps : ℕ)
        → slice_index rest 0 ≡ next
        → let s = state_of Phase.Running calls.old memory rest output steps in
        let after = left (takes step.now) rest in
        state_of result.0 calls.new memory after (put output result.1) steps
        ≡ carry_out U p.now s calls.old.top calls.old.below step.now }
{
    match step {
        Step::Put { v } => (Phase::Running, Some(show(calls, *v))),
        Step::Take { d } => {
            calls.assign(*d, next);
            (Phase::Running, None)
        }
        Step::Invoke { callee, args, .. } => {
            calls.enter(*callee as usize, args.as_slice());
            (Phase::Running, None)
        }
        Step::Return { s } => (give_back_of(calls, p, *s), None),
        Step::End => (end_call(calls, p), None),
        Step::Halt => (Phase::Stopped, None),
        _ => unreachable!(),
    }
}

/// Carries out a step, where `next` is the next word of the input. It answers whether the run goes
/// on, and the word that is output, if any.
#[inline(always)]
pub fn carry(
    calls: &mut Calls,
    memory: &mut Words,
    relations: &mut Relations,
    basis: &Basis<'_>,
    step: &Step,
    next: u32,
) -> (Phase, Option<u32>)
    requires rules { IsProgram basis.now.p.now }
    requires loaded { AreCallsOf basis.now.p.now calls.old }
    requires at { step_at basis.now.p.now calls.old.top.proc calls.old.top.at ≡ Some step.now }
    requires more { calls.old.top.at + 1 < 2 ^ 64 }
    ensures loaded { AreCallsOf basis.now.p.now calls.new }
    ensures space { length memory.new ≡ length memory.old }
    ensures carried { (rest output : List ℕ) (steps : ℕ) → slice_index rest 0 ≡ next
        → let U = stated unit_meaning basis.now.units.now in
        let s = state_of Phase.Running calls.old memory.old rest output steps in
        let after = left (takes step.now) rest in
        state_of result.0 calls.new memory.new after (put output result.1) steps
        ≡ carry_out U basis.now.p.now s calls.old.top calls.old.below step.now }
{
    if calls.step_silent(memory, relations, basis.units, step) {
        return (Phase::Running, None);
    }
    carry_any(calls, basis.p, step, next)
}
