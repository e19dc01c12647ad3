//! The items of an exit.

ghost use Rattle.std.specs.Prelude.{◌≡◌, true, ◌++◌, IfOk};
ghost use Rattle.tta_ops.specs.Set.{stated};
ghost use Rattle.tta_select.specs.Select.{items_of_exit};
ghost use Rattle.tta_select.specs.Needs.{is_exit_of, has_no_condition};

use crate::operands::fetch;
use crate::putting::constant;
use crate::stepping::{condition, guard_of};
use crate::target::SelectionTarget;
use std::alloc::AllocError;
use tta_arch::Dest;
use tta_lir::Exit;
use tta_list::Items;
use tta_moves::{Item, LongValue};
use tta_ops::UnitSet;

/// Whether a block ends without a condition.
fn has_no_condition(e: Exit) -> bool
    ensures { result ≡ has_no_condition e }
{
    !matches!(e, Exit::If { .. })
}

/// Puts the items of an exit without a condition at the end.
fn leave(
    items: &mut Items<Item>,
    on: &SelectionTarget<'_>,
    units: &UnitSet,
    e: Exit,
) -> Result<(), AllocError>
    requires plain { has_no_condition e ≡ true }
    ensures { IfOk result (λ x. items.new ≡ items.old
        ++ items_of_exit on.now.machine.now on.now.choice.now (stated unit_meaning units.now) e) }
{
    match e {
        Exit::Next | Exit::If { .. } => Ok(()),
        Exit::Goto { to } => constant(items, on, None, LongValue::Address(to), Dest::Jump),
        Exit::Invoke { to } => constant(items, on, None, LongValue::Address(to), Dest::Call),
        Exit::Back { slot } => fetch(items, on, None, slot, Dest::Jump),
        Exit::Halt => constant(items, on, None, LongValue::Word(0), Dest::Halt),
    }
}

/// Puts the items of an exit at the end.
pub fn put_exit(
    items: &mut Items<Item>,
    on: &SelectionTarget<'_>,
    units: &UnitSet,
    blocks: usize,
    e: Exit,
) -> Result<(), AllocError>
    requires inside { is_exit_of on.now.machine.now on.now.choice.now blocks e ≡ true }
    ensures { IfOk result (λ x. items.new ≡ items.old
        ++ items_of_exit on.now.machine.now on.now.choice.now (stated unit_meaning units.now) e) }
{
    match e {
        Exit::If { rel, a, b, to } => {
            condition(items, on, units, rel, a, b)?;
            let guard = Some(guard_of(on.choice, rel));
            constant(items, on, guard, LongValue::Address(to), Dest::Jump)
        }
        _ => leave(items, on, units, e),
    }
}
