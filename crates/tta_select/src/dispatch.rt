//! The items of each step, and of all steps of a block.

ghost use Rattle.std.specs.Prelude.{◌≡◌, true, ◌++◌, IfOk};
ghost use Rattle.std.specs.List.{flat_map, list_all};
ghost use Rattle.tta_ops.specs.Set.{stated};
ghost use Rattle.tta_select.specs.Select.{items_of_step};
ghost use Rattle.tta_select.specs.Needs.{is_step_of, fits_step};

use crate::calling::call_of;
use crate::merging::choose;
use crate::operands::{home_at, trigger_at, value};
use crate::stepping::{apply, condition, copy_to_slot, guard_of, load, save_ra, store, take};
use crate::target::SelectionTarget;
use std::alloc::AllocError;
use tta_arch::Op;
use tta_lir::{Place, RStep};
use tta_list::Items;
use tta_moves::Item;
use tta_ops::UnitSet;

/// Puts the items of a step at the end.
fn put_step(
    items: &mut Items<Item>,
    on: &SelectionTarget<'_>,
    units: &UnitSet,
    step: RStep,
) -> Result<(), AllocError>
    requires inside { is_step_of on.now.machine.now on.now.choice.now step ≡ true }
    ensures { IfOk result (λ x. items.new ≡ items.old
        ++ items_of_step on.now.machine.now on.now.choice.now (stated unit_meaning units.now)
        step) }
{
    match step {
        RStep::Copy {
            d: Place::Reg(k),
            s,
        } => value(items, on, None, s, home_at(on.choice, k)),
        RStep::Copy {
            d: Place::Frame(slot),
            s,
        } => copy_to_slot(items, on, slot, s),
        RStep::Apply { d, op, a, b } => {
            apply(
                items,
                on,
                call_of(on.machine, on.choice, Op::Set(op)),
                d,
                a,
                b,
            )
        }
        RStep::Load { d, a } => load(items, on, call_of(on.machine, on.choice, Op::Ldw), d, a),
        RStep::Take { d } => take(items, on, call_of(on.machine, on.choice, Op::Take), d),
        RStep::Store { a, v } => store(items, on, call_of(on.machine, on.choice, Op::Stw), a, v),
        RStep::Put { v } => {
            let f = call_of(on.machine, on.choice, Op::Out);
            value(items, on, None, v, trigger_at(f))
        }
        RStep::When { rel, a, b, d, s } => {
            condition(items, on, units, rel, a, b)?;
            choose(items, on, guard_of(on.choice, rel), s, d)
        }
        RStep::SaveRa { slot } => save_ra(items, on, slot),
    }
}

/// Puts the items of steps in their order at the end.
#[tactic(auto, using(crate::proofs::Walks::flat_more, crate::proofs::Walks::flat_done))]
pub fn put_steps(
    items: &mut Items<Item>,
    on: &SelectionTarget<'_>,
    units: &UnitSet,
    steps: &[RStep],
) -> Result<(), AllocError>
    requires inside { list_all (fits_step (stated unit_meaning units.now)
        on.now.machine.now on.now.choice.now) steps.now ≡ true }
    ensures { IfOk result (λ x. items.new ≡ items.old
        ++ flat_map (items_of_step on.now.machine.now on.now.choice.now
        (stated unit_meaning units.now)) steps.now) }
{
    for step in steps {
        put_step(items, on, units, *step)?;
    }
    Ok(())
}
