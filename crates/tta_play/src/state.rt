//! A state of a run, put at the end of a text.

ghost use Rattle.std.specs.Prelude.{◌≡◌, ◌≤◌, ◌<◌, ◌^◌, ◌++◌, length, slice_get, OnOk};
ghost use Rattle.std.specs.Option.{option_copied};
ghost use Rattle.tta_ops.specs.Set.{stated};
ghost use Rattle.tta_code.specs.Cycle.{State};
ghost use Rattle.tta_sim.specs.Held.{Stands, IsRunOf};
ghost use Rattle.tta_play.specs.Controls.{Follows, kind_of, pending_of};
ghost use Rattle.tta_play.specs.States.{code_at_text, code_text, control_text, input_text};
ghost use Rattle.tta_play.specs.States.{held_text, kind_text, pending_text, results_text, state_text};
ghost use Rattle.tta_play.specs.States.{units_text, where_text};

use crate::control::{ControlKind, UnderWay};
use crate::places::push_places;
use crate::words::{push_dues, push_number, push_word};
use std::alloc::AllocError;
use tta_arch::{Machine, Unit};
use tta_code::{Code, Instruction};
use tta_disasm::push_instruction;
use tta_ops::UnitSet;
use tta_profile::Basis;
use tta_sim::Sim;

/// Puts how many cycles were made, and the address of the next instruction.
#[tactic(auto, unfolding(crate::specs::States::where_text))]
fn push_where(out: &mut Vec<u8>, sim: &Sim) -> Result<(), AllocError>
    ensures { (s : State) → Stands sim.now s
        → OnOk result (out.new.items ≡ out.old.items ++ where_text s) }
{
    out.extend_from_slice(b"state ")?;
    push_number(out, sim.cycles())?;
    out.extend_from_slice(b" ")?;
    push_number(out, u64::from(sim.pc()))?;
    out.extend_from_slice(b"\n")
}

/// Puts the results of a unit: the one that its port shows, and those that are due later.
#[tactic(auto, unfolding(crate::specs::States::results_text))]
fn push_results(out: &mut Vec<u8>, sim: &Sim, unit: u8) -> Result<(), AllocError>
    requires unit { unit < length sim.now.shown }
    requires few { sim.now.cycle < 2 ^ 63 }
    ensures { (s : State) → Stands sim.now s
        → OnOk result (out.new.items ≡ out.old.items ++ results_text s unit) }
{
    out.extend_from_slice(b"results")?;
    push_word(out, sim.port(unit))?;
    push_dues(out, sim, unit)?;
    out.extend_from_slice(b"\n")
}

/// Puts the results of units.
fn push_units(out: &mut Vec<u8>, sim: &Sim, units: &[Unit]) -> Result<(), AllocError>
    requires units { length sim.now.shown ≡ length units.now }
    requires few_units { length units.now ≤ 32 }
    requires few { sim.now.cycle < 2 ^ 63 }
    ensures { (s : State) → Stands sim.now s
        → OnOk result (out.new.items ≡ out.old.items ++ units_text s units.now) }
{
    for (unit, _) in units.iter().enumerate() {
        push_results(out, sim, unit as u8)?;
    }
    Ok(())
}

/// Puts the word of the input that comes next, if one is left.
fn push_input(out: &mut Vec<u8>, next: Option<u32>) -> Result<(), AllocError>
    ensures { OnOk result (out.new.items ≡ out.old.items ++ input_text next) }
{
    match next {
        None => Ok(()),
        Some(word) => {
            out.extend_from_slice(b"input ")?;
            push_number(out, u64::from(word))?;
            out.extend_from_slice(b"\n")
        }
    }
}

/// Puts an instruction as assembly.
#[tactic(auto, unfolding(crate::specs::States::code_text))]
fn push_code(
    out: &mut Vec<u8>,
    units: &UnitSet,
    m: &Machine,
    i: &Instruction,
) -> Result<(), AllocError>
    ensures { let U = stated unit_meaning units.now in
        OnOk result (out.new.items ≡ out.old.items ++ code_text U m.now i.now) }
{
    out.extend_from_slice(b"code ")?;
    push_instruction(out, units, m, i)
}

/// The instruction of an address, if there is one.
fn instruction_at(code: &Code, address: u32) -> Option<&Instruction>
    ensures { option_copied result ≡ slice_get code.now.words address }
{
    code.words.as_slice().get(address as usize)
}

/// Puts the instruction of an address, if there is one.
fn push_code_at(
    out: &mut Vec<u8>,
    units: &UnitSet,
    m: &Machine,
    code: &Code,
    address: u32,
) -> Result<(), AllocError>
    ensures { let U = stated unit_meaning units.now in
        OnOk result (out.new.items ≡ out.old.items
        ++ code_at_text U m.now code.now.words address) }
{
    match instruction_at(code, address) {
        Some(i) => push_code(out, units, m, i),
        None => Ok(()),
    }
}

/// Puts what a control move under way does.
fn push_kind(out: &mut Vec<u8>, kind: ControlKind) -> Result<(), AllocError>
    ensures { OnOk result (out.new.items ≡ out.old.items ++ kind_text (kind_of kind)) }
{
    match kind {
        ControlKind::Jump => out.extend_from_slice(b"jump "),
        ControlKind::Call => out.extend_from_slice(b"call "),
        ControlKind::Halt => out.extend_from_slice(b"halt "),
    }
}

/// Puts a control move that is under way, where so many cycles are made.
#[tactic(auto, unfolding(crate::specs::States::pending_text))]
fn push_pending(out: &mut Vec<u8>, cycle: u64, p: UnderWay) -> Result<(), AllocError>
    ensures { OnOk result
        (out.new.items ≡ out.old.items ++ pending_text cycle (pending_of p)) }
{
    out.extend_from_slice(b"pending ")?;
    push_kind(out, p.kind)?;
    push_number(out, u64::from(p.word))?;
    out.extend_from_slice(b" ")?;
    push_number(out, p.time.saturating_sub(cycle))?;
    out.extend_from_slice(b"\n")
}

/// Puts the control move that is under way in a run, if there is one.
fn push_control(out: &mut Vec<u8>, sim: &Sim, under_way: Option<UnderWay>) -> Result<(), AllocError>
    ensures { (s : State) → Follows sim.now under_way s
        → OnOk result (out.new.items ≡ out.old.items ++ control_text s) }
{
    match under_way {
        None => Ok(()),
        Some(p) => push_pending(out, sim.cycles(), p),
    }
}

/// Puts the words that a state keeps, its results, the word of the input and the instruction that come next.
#[tactic(auto, unfolding(crate::specs::States::held_text))]
fn push_held(
    out: &mut Vec<u8>,
    basis: &Basis<'_>,
    sim: &Sim,
    next: Option<u32>,
) -> Result<(), AllocError>
    requires loaded { IsRunOf basis.now.m.now basis.now.code.now sim.now }
    requires few { sim.now.cycle < 2 ^ 63 }
    ensures { let U = stated unit_meaning basis.now.units.now in
        (s : State) → Stands sim.now s → OnOk result (out.new.items ≡ out.old.items
        ++ held_text U basis.now.m.now basis.now.code.now.words next s) }
{
    let m = basis.m;
    push_places(out, m, sim)?;
    push_units(out, sim, m.units.as_slice())?;
    push_input(out, next)?;
    push_code_at(out, basis.units, m, basis.code, sim.pc())
}

/// Puts a state: where it is, the control move that is under way, and what it holds.
#[tactic(auto, unfolding(crate::specs::States::state_text))]
pub fn push_state(
    out: &mut Vec<u8>,
    basis: &Basis<'_>,
    sim: &Sim,
    under_way: Option<UnderWay>,
    next: Option<u32>,
) -> Result<(), AllocError>
    requires loaded { IsRunOf basis.now.m.now basis.now.code.now sim.now }
    requires few { sim.now.cycle < 2 ^ 63 }
    ensures { let U = stated unit_meaning basis.now.units.now in
        (s : State) → Follows sim.now under_way s → OnOk result (out.new.items
        ≡ out.old.items ++ state_text U basis.now.m.now basis.now.code.now.words next s) }
{
    push_where(out, sim)?;
    push_control(out, sim, under_way)?;
    push_held(out, basis, sim, next)
}
