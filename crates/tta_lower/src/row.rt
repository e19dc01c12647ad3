//! What steps become.

ghost use Rattle.std.specs.Prelude.{◌≡◌, ◌<◌, ◌≤◌, ◌+◌, ◌-◌, ◌++◌, ℕ, true, false, Some, length, slice_get, OnOk, MatchOption, [], ◌∷◌};
ghost use Rattle.std.specs.List.{list_all};
ghost use Rattle.tta_program.specs.declared.program.Proc.{Proc};
ghost use Rattle.tta_program.specs.declared.step.Step.{Step};
ghost use Rattle.tta_program.specs.Rules.{is_src};
ghost use Rattle.tta_program.specs.Sequential.{step_at};
ghost use Rattle.tta_lower.specs.Liveness.{is_plain};
ghost use Rattle.tta_lower.specs.Tables.{uses_below, fits};
ghost use Rattle.tta_lower.specs.Plan.{homes_in};
ghost use Rattle.tta_lower.specs.Layout.{vars_of, passes, gives, steps_for, code_from};

use crate::plan::{Plan, place_of, slot_of, source_of, value_slot};
use std::alloc::AllocError;
use tta_flow::Block;
use tta_lir::{Place, RSrc, RStep};
use tta_program::{Program, Src, Step};

/// What a step becomes that only goes on.
pub fn plain_step(plan: &Plan<'_>, owner: u32, step: &Step) -> Option<RStep>
    requires there { owner < length plan.now.p.now.procs }
    requires vars { uses_below (vars_of plan.now.p.now owner) step.now ≡ true }
    ensures { MatchOption result (is_plain step.now ≡ false)
        (λ r. steps_for plan.now.p.now (homes_in plan.now) owner step.now ≡ r ∷ []) }
{
    match step {
        Step::Copy { d, s } => Some(RStep::Copy {
            d: place_of(plan, owner, *d),
            s: source_of(plan, owner, *s),
        }),
        Step::Load { d, a } => Some(RStep::Load {
            d: place_of(plan, owner, *d),
            a: source_of(plan, owner, *a),
        }),
        Step::Take { d } => Some(RStep::Take {
            d: place_of(plan, owner, *d),
        }),
        Step::Put { v } => Some(RStep::Put {
            v: source_of(plan, owner, *v),
        }),
        Step::Apply { d, op, a, b } => Some(RStep::Apply {
            d: place_of(plan, owner, *d),
            op: *op,
            a: source_of(plan, owner, *a),
            b: source_of(plan, owner, *b),
        }),
        Step::Store { a, v } => Some(RStep::Store {
            a: source_of(plan, owner, *a),
            v: source_of(plan, owner, *v),
        }),
        Step::When { rel, a, b, d, s } => Some(RStep::When {
            rel: *rel,
            a: source_of(plan, owner, *a),
            b: source_of(plan, owner, *b),
            d: place_of(plan, owner, *d),
            s: source_of(plan, owner, *s),
        }),
        _ => None,
    }
}

/// The arguments of a call go to the callee's slots, from its variable x on.
pub fn pass_args(
    into: &mut Vec<RStep>,
    plan: &Plan<'_>,
    owner: u32,
    callee: u32,
    args: &[Src],
) -> Result<(), AllocError>
    requires there { owner < length plan.now.p.now.procs }
    requires called { callee < length plan.now.p.now.procs }
    requires vars { list_all (is_src (vars_of plan.now.p.now owner)) args.now ≡ true }
    requires room { length args.now ≤ vars_of plan.now.p.now callee }
    requires short { length args.now ≤ 8 }
    ensures { OnOk result (into.new.items ≡ into.old.items
        ++ passes plan.now.p.now (homes_in plan.now) owner callee 0 args.now) }
{
    for (x, s) in args.iter().enumerate() {
        let d = Place::Frame(slot_of(plan, callee, x as u32));
        let s = source_of(plan, owner, *s);
        into.push(RStep::Copy { d, s })?;
    }
    Ok(())
}

/// The returned value goes to its slot; main returns none.
pub fn give(into: &mut Vec<RStep>, plan: &Plan<'_>, owner: u32, s: RSrc) -> Result<(), AllocError>
    requires there { owner < length plan.now.p.now.procs }
    ensures { OnOk result (into.new.items ≡ into.old.items
        ++ gives plan.now.p.now (homes_in plan.now) owner s) }
{
    let p = plan.p;
    if owner != p.main {
        let d = Place::Frame(value_slot(plan, owner));
        into.push(RStep::Copy { d, s })?;
    }
    Ok(())
}

/// What a step becomes, but for the exit.
pub fn lower_step(
    into: &mut Vec<RStep>,
    plan: &Plan<'_>,
    owner: u32,
    step: &Step,
) -> Result<(), AllocError>
    requires there { owner < length plan.now.p.now.procs }
    requires fits { fits plan.now.p.now owner step.now ≡ true }
    ensures { OnOk result (into.new.items ≡ into.old.items
        ++ steps_for plan.now.p.now (homes_in plan.now) owner step.now) }
{
    match step {
        Step::Invoke { callee, args, .. } => pass_args(into, plan, owner, *callee, args.as_slice()),
        Step::Return { s: Some(s) } => {
            let s = source_of(plan, owner, *s);
            give(into, plan, owner, s)
        }
        Step::Return { s: None } | Step::End => give(into, plan, owner, RSrc::Word(0)),
        Step::If { .. } | Step::Goto { .. } | Step::Halt => Ok(()),
        _ => push_plain(into, plan, owner, step),
    }
}

/// Puts the register code of a step that neither branches nor calls.
fn push_plain(
    into: &mut Vec<RStep>,
    plan: &Plan<'_>,
    owner: u32,
    step: &Step,
) -> Result<(), AllocError>
    requires there { owner < length plan.now.p.now.procs }
    requires vars { uses_below (vars_of plan.now.p.now owner) step.now ≡ true }
    requires plain { is_plain step.now ≡ true }
    ensures { OnOk result (into.new.items ≡ into.old.items
        ++ steps_for plan.now.p.now (homes_in plan.now) owner step.now) }
{
    if let Some(r) = plain_step(plan, owner, step) {
        into.push(r)?;
    }
    Ok(())
}

/// What the steps of a block become.
#[tactic(auto, using(crate::proofs::Rows::row_more))]
pub fn lower_steps(into: &mut Vec<RStep>, plan: &Plan<'_>, b: Block) -> Result<(), AllocError>
    requires there { b.owner < length plan.now.p.now.procs }
    requires ordered { b.first ≤ b.last }
    requires within { (q : Proc) → slice_get plan.now.p.now.procs b.owner ≡ Some q
        → b.last < length q.steps }
    requires fits { (at : ℕ) (st : Step) → step_at plan.now.p.now b.owner at ≡ Some st
        → fits plan.now.p.now b.owner st ≡ true }
    ensures { OnOk result (into.new.items ≡ into.old.items
        ++ code_from plan.now.p.now (homes_in plan.now) b.owner b.first (b.last + 1 - b.first)) }
{
    for at in b.first as usize..b.last as usize + 1 {
        lower_step(into, plan, b.owner, step_there(plan.p, b.owner, at))?;
    }
    Ok(())
}

/// A step of a procedure.
#[tactic(auto, using(crate::proofs::Rows::there_at))]
pub fn step_there(p: &Program, owner: u32, at: usize) -> &Step
    requires there { owner < length p.now.procs }
    requires within { (q : Proc) → slice_get p.now.procs owner ≡ Some q → at < length q.steps }
    ensures { step_at p.now owner at ≡ Some result.now }
{
    &p.procs.as_slice()[owner as usize].steps.as_slice()[at]
}
