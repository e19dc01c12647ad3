//! Blocks of register code, each from the part of the program that it stands for.

ghost use Rattle.std.specs.Prelude.{◌≡◌, ◌≢◌, ◌<◌, ◌≤◌, ◌+◌, ◌++◌, ℕ, true, Some, length, slice_get, OnOk, IfOk, map};
ghost use Rattle.tta_program.specs.declared.program.Proc.{Proc};
ghost use Rattle.tta_program.specs.declared.step.Step.{Step};
ghost use Rattle.tta_program.specs.Sequential.{step_at};
ghost use Rattle.tta_alloc.specs.Homes.{count_of};
ghost use Rattle.tta_lower.specs.Tables.{fits};
ghost use Rattle.tta_lower.specs.Plan.{homes_in, live_in, block_in};
ghost use Rattle.tta_lower.specs.Layout.{vars_of, keeps_ra};
ghost use Rattle.tta_lower.specs.Lower.{Entry, Steps, Returned};
ghost use Rattle.tta_lower.specs.Laid.{stays_after, IsPart, AreParts};

use crate::ends::exit_of;
use crate::entry::set_live;
use crate::kept::kept_homes;
use crate::numbers::Numbers;
use crate::part::Part;
use crate::plan::{Plan, back_slot, place_of, value_slot};
use crate::row::{lower_steps, step_there};
use std::alloc::{AllocError, Global};
use tta_flow::Block;
use tta_lir::{Exit, Place, RBlock, RSrc, RStep};
use tta_list::Items;
use tta_program::Step;

/// The return address is kept, but in main.
fn keep_ra(into: &mut Vec<RStep>, plan: &Plan<'_>, owner: u32) -> Result<(), AllocError>
    requires there { owner < length plan.now.p.now.procs }
    ensures { OnOk result (into.new.items
        ≡ into.old.items ++ keeps_ra plan.now.p.now (homes_in plan.now) owner) }
{
    let p = plan.p;
    if owner != p.main {
        into.push(RStep::SaveRa {
            slot: back_slot(plan, owner),
        })?;
    }
    Ok(())
}

/// The block at the entry of a procedure.
fn entry_block(
    alloc: Global,
    plan: &Plan<'_>,
    numbers: &Numbers,
    owner: u32,
) -> Result<RBlock, AllocError>
    requires there { owner < length plan.now.p.now.procs }
    ensures { IfOk result (λ r. r ≡ block_in plan.now numbers.now (Entry owner)) }
{
    let mut steps = Vec::new(alloc);
    keep_ra(&mut steps, plan, owner)?;
    set_live(&mut steps, plan, owner)?;
    let live_out = kept_homes(alloc, plan, Part::Entry(owner))?;
    Ok(RBlock {
        steps: Items::of(steps),
        exit: Exit::Next,
        live_out: Items::of(live_out),
    })
}

/// The block after a call: the destination gets the returned value.
fn return_block(
    alloc: Global,
    plan: &Plan<'_>,
    numbers: &Numbers,
    b: Block,
    d: u32,
    callee: u32,
) -> Result<RBlock, AllocError>
    requires there { b.owner < length plan.now.p.now.procs }
    requires called { callee < length plan.now.p.now.procs }
    requires other { callee ≢ plan.now.p.now.main }
    requires within { d < vars_of plan.now.p.now b.owner }
    ensures { IfOk result (λ r. r ≡ block_in plan.now numbers.now (Returned b d callee)) }
{
    let place = place_of(plan, b.owner, d);
    let s = RSrc::At(Place::Frame(value_slot(plan, callee)));
    let mut steps = Vec::new(alloc);
    steps.push(RStep::Copy { d: place, s })?;
    let live_out = kept_homes(alloc, plan, Part::Returned(b, d, callee))?;
    Ok(RBlock {
        steps: Items::of(steps),
        exit: Exit::Next,
        live_out: Items::of(live_out),
    })
}

/// The home registers that keep their words after a last step; none does after a call.
fn kept_after(alloc: Global, plan: &Plan<'_>, b: Block, step: &Step) -> Result<Vec<u32>, AllocError>
    requires there { b.owner < length plan.now.p.now.procs }
    ensures { IfOk result (λ kept. kept.items
        ≡ stays_after (homes_in plan.now) (vars_of plan.now.p.now b.owner)
        (count_of plan.now.homes.now) b.owner (live_in plan.now (Steps b)) step.now) }
{
    match step {
        Step::Invoke { .. } => Ok(Vec::new(alloc)),
        _ => kept_homes(alloc, plan, Part::Steps(b)),
    }
}

/// The block of some steps.
fn steps_block(
    alloc: Global,
    plan: &Plan<'_>,
    numbers: &Numbers,
    b: Block,
) -> Result<RBlock, AllocError>
    requires there { b.owner < length plan.now.p.now.procs }
    requires entries { length numbers.now.entries.items ≡ length plan.now.p.now.procs }
    requires ordered { b.first ≤ b.last }
    requires within { (q : Proc) → slice_get plan.now.p.now.procs b.owner ≡ Some q
        → b.last < length q.steps }
    requires fits { (at : ℕ) (st : Step) → step_at plan.now.p.now b.owner at ≡ Some st
        → fits plan.now.p.now b.owner st ≡ true }
    ensures { IfOk result (λ r. r ≡ block_in plan.now numbers.now (Steps b)) }
{
    let last = step_there(plan.p, b.owner, b.last as usize);
    let exit = exit_of(plan, numbers, b.owner, last);
    let mut steps = Vec::new(alloc);
    lower_steps(&mut steps, plan, b)?;
    let live_out = kept_after(alloc, plan, b, last)?;
    Ok(RBlock {
        steps: Items::of(steps),
        exit,
        live_out: Items::of(live_out),
    })
}

/// The block of a part.
fn block_for(
    alloc: Global,
    plan: &Plan<'_>,
    numbers: &Numbers,
    part: Part,
) -> Result<RBlock, AllocError>
    requires entries { length numbers.now.entries.items ≡ length plan.now.p.now.procs }
    requires part { IsPart plan.now.p.now part }
    requires fits { (owner at : ℕ) (st : Step) → step_at plan.now.p.now owner at ≡ Some st
        → fits plan.now.p.now owner st ≡ true }
    ensures { IfOk result (λ r. r ≡ block_in plan.now numbers.now part) }
{
    match part {
        Part::Entry(owner) => entry_block(alloc, plan, numbers, owner),
        Part::Steps(b) => steps_block(alloc, plan, numbers, b),
        Part::Returned(b, d, callee) => return_block(alloc, plan, numbers, b, d, callee),
    }
}

/// The blocks of some parts.
pub fn blocks_for(
    alloc: Global,
    plan: &Plan<'_>,
    numbers: &Numbers,
    parts: &[Part],
) -> Result<Vec<RBlock>, AllocError>
    requires entries { length numbers.now.entries.items ≡ length plan.now.p.now.procs }
    requires parts { AreParts plan.now.p.now parts.now }
    requires fits { (owner at : ℕ) (st : Step) → step_at plan.now.p.now owner at ≡ Some st
        → fits plan.now.p.now owner st ≡ true }
    ensures { IfOk result (λ blocks. blocks.items
        ≡ map (block_in plan.now numbers.now) parts.now) }
{
    let mut blocks = Vec::new(alloc);
    for part in parts {
        blocks.push(block_for(alloc, plan, numbers, *part)?)?;
    }
    Ok(blocks)
}
