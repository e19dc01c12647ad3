//! An instruction carried out by all walks that stand at it.

ghost use Rattle.std.specs.Prelude.{◌≡◌, ◌+◌, ◌<◌, ◌≤◌, ◌^◌, length, false, true};
ghost use Rattle.std.specs.Prelude.{IfOk};
ghost use Rattle.std.specs.Option.{option_map};
ghost use Rattle.tta_code.specs.Cycle.{effect_of, effects_of};
ghost use Rattle.tta_check.specs.Controls.{controller};
ghost use Rattle.tta_check.specs.Going.{event_as};
ghost use Rattle.tta_check.specs.Transfers.{have_latency};
ghost use Rattle.tta_check.specs.Visits.{IsWay, settled, IsActs, IsStays, Visits};

use crate::causes::code_at;
use crate::effects::controller;
use crate::fault_numbers::UNKNOWN_TARGET;
use crate::guard_value::GuardValue;
use crate::jump_target::{event_of, jump_target_of};
use crate::point::{Event, ProgramPoint, point_after, under_after};
use crate::state::AbstractState;
use crate::transfer_function::{Transfer, transferred};
use crate::verdict::Verdict;
use std::alloc::{AllocError, Global};
use tta_arch::{GuardRef, Machine};
use tta_code::{Instruction, Move};

/// A successor: the program point where walks go on, and what may hold of them there.
#[derive(Drop)]
pub struct Successor {
    pub point: ProgramPoint,
    pub state: AbstractState,
}

/// What comes of an instruction: a verdict, or where walks go on where the control move acts, and
/// where it does not.
#[derive(Drop)]
pub enum Outcome {
    Ends(Verdict),
    Goes {
        acts: Option<Successor>,
        stays: Option<Successor>,
    },
}

/// Where walks go on that carry out an instruction one way, if they do.
fn successor_of(
    alloc: Global,
    m: &Machine,
    i: &Instruction,
    settled: Option<GuardValue>,
    event: Option<Event>,
    at: &Successor,
) -> Result<Option<Successor>, AllocError>
    requires few { length at.now.state.ports.items ≤ 256 }
    requires times { have_latency m.now i.now }
    requires room { at.now.point.address + 1 + m.now.control.delay < 2 ^ 32 }
    ensures { IfOk result (λ o. IsWay m.now i.now at.now settled (option_map event_as event) o) }
{
    let under = under_after(m.control.delay, at.point.under, event);
    let Some(point) = point_after(at.point.address, under) else {
        return Ok(None);
    };
    let how = Transfer {
        back: at.point.address + 1 + u32::from(m.control.delay),
        settled,
    };
    let state = transferred(alloc, m, i, how, &at.state)?;
    Ok(Some(Successor { point, state }))
}

/// A guard that is settled, if there is one.
fn settled(guard: Option<GuardRef>, acts: bool) -> Option<GuardValue>
    ensures { result ≡ settled guard acts }
{
    match guard {
        None => None,
        Some(guard) => Some(GuardValue { guard, acts }),
    }
}

/// Where walks go on where the control move stays without effect, if they can.
fn where_stays(
    alloc: Global,
    m: &Machine,
    i: &Instruction,
    control: Option<Move>,
    at: &Successor,
) -> Result<Option<Successor>, AllocError>
    requires few { length at.now.state.ports.items ≤ 256 }
    requires times { have_latency m.now i.now }
    requires room { at.now.point.address + 1 + m.now.control.delay < 2 ^ 32 }
    ensures { IfOk result (λ o. IsStays m.now i.now at.now (option_map effect_of control) o) }
{
    let Some(v) = control else {
        return successor_of(alloc, m, i, None, None, at);
    };
    match v.guard {
        None => Ok(None),
        Some(guard) => successor_of(alloc, m, i, settled(Some(guard), false), None, at),
    }
}

/// Where walks go on where the control move acts, if they can.
fn where_acts(
    alloc: Global,
    m: &Machine,
    i: &Instruction,
    control: Option<Move>,
    word: Option<u32>,
    at: &Successor,
) -> Result<Option<Successor>, AllocError>
    requires few { length at.now.state.ports.items ≤ 256 }
    requires times { have_latency m.now i.now }
    requires room { at.now.point.address + 1 + m.now.control.delay < 2 ^ 32 }
    ensures { IfOk result (λ o. IsActs m.now i.now at.now (option_map effect_of control) word o) }
{
    let Some(v) = control else {
        return Ok(None);
    };
    successor_of(
        alloc,
        m,
        i,
        settled(v.guard, true),
        event_of(word, control),
        at,
    )
}

/// The control move of an instruction.
#[tactic(auto, using(crate::proofs::Instructions::control_moves))]
fn control_of(m: &Machine, i: &Instruction) -> Option<Move>
    ensures { option_map effect_of result ≡ controller (effects_of m.now i.now) }
{
    m.rules();
    controller(i.moves.as_slice())
}

/// What comes of an instruction for the walks that stand at it.
pub fn visit(
    alloc: Global,
    m: &Machine,
    i: &Instruction,
    at: &Successor,
) -> Result<Outcome, AllocError>
    requires few { length at.now.state.ports.items ≤ 256 }
    requires times { have_latency m.now i.now }
    requires room { at.now.point.address + 1 + m.now.control.delay < 2 ^ 32 }
    ensures { IfOk result (λ o. Visits m.now i.now at.now o) }
{
    if let Some(code) = code_at(&at.state, m, i, at.point.under.is_some()) {
        return Ok(Outcome::Ends(Verdict::Unsafe {
            code,
            word: at.point.address,
        }));
    }
    let control = control_of(m, i);
    let Some(word) = jump_target_of(&at.state.cells, control) else {
        return Ok(Outcome::Ends(Verdict::Unsafe {
            code: UNKNOWN_TARGET,
            word: at.point.address,
        }));
    };
    let acts = where_acts(alloc, m, i, control, word, at)?;
    let stays = where_stays(alloc, m, i, control, at)?;
    Ok(Outcome::Goes { acts, stays })
}
