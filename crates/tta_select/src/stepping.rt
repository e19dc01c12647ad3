//! The items of a step.

ghost use Rattle.std.specs.Prelude.{◌≡◌, true, ◌++◌, IfOk};
ghost use Rattle.tta_ops.specs.Set.{stated};
ghost use Rattle.tta_arch.specs.declared.parts.Op.TheVariants.{Stf};
ghost use Rattle.tta_select.specs.Select.{call_of, operand_at, trigger_at, is_inverted};
ghost use Rattle.tta_select.specs.Select.{constant, carry, value, operate, address_slot, condition};
ghost use Rattle.tta_select.specs.Select.{result as result_items};
ghost use Rattle.tta_select.specs.Relation.{is_place_of, is_src_of};

use crate::calling::{call_of, test_op};
use crate::operands::{operand_at, shown_at, trigger_at, value};
use crate::operating::{address_slot, operate, put_result};
use crate::putting::{carry, constant};
use crate::target::SelectionTarget;
use std::alloc::AllocError;
use tta_arch::{Dest, GuardRef, Source};
use tta_connect::{Call, Choice};
use tta_lir::{Place, RSrc};
use tta_list::Items;
use tta_moves::{Item, ItemSource, LongValue};
use tta_ops::UnitSet;
use tta_program::Rel;

/// Whether a condition holds where its operation does not.
fn is_inverted(rel: Rel) -> bool
    ensures { result ≡ is_inverted rel }
{
    match rel {
        Rel::Eq | Rel::Lt | Rel::Ltu => false,
        Rel::Ne | Rel::Ge | Rel::Geu => true,
    }
}

/// The guard under which a condition holds.
pub fn guard_of(c: &Choice, rel: Rel) -> GuardRef
    ensures { result ≡ record {
      file = c.now.guard_file;
      index = c.now.guard_index;
      inverted = is_inverted rel;
    } }
{
    GuardRef {
        file: c.guard_file,
        index: c.guard_index,
        inverted: is_inverted(rel),
    }
}

/// Puts a condition's way to the guard register at the end.
pub fn condition(
    items: &mut Items<Item>,
    on: &SelectionTarget<'_>,
    units: &UnitSet,
    rel: Rel,
    a: RSrc,
    b: RSrc,
) -> Result<(), AllocError>
    requires first { is_src_of on.now.machine.now on.now.choice.now a ≡ true }
    requires second { is_src_of on.now.machine.now on.now.choice.now b ≡ true }
    ensures { IfOk result (λ x. items.new ≡ items.old
        ++ condition on.now.machine.now on.now.choice.now (stated unit_meaning units.now)
        rel a b) }
{
    let f = call_of(on.machine, on.choice, test_op(units, rel));
    operate(items, on, f, a, b)?;
    let dst = Dest::Reg {
        file: on.choice.guard_file,
        index: on.choice.guard_index,
    };
    carry(items, on, None, shown_at(f), dst)
}

/// Puts the items of a copy to a slot at the end.
pub fn copy_to_slot(
    items: &mut Items<Item>,
    on: &SelectionTarget<'_>,
    slot: u32,
    s: RSrc,
) -> Result<(), AllocError>
    requires source { is_src_of on.now.machine.now on.now.choice.now s ≡ true }
    ensures { IfOk result (λ x. items.new ≡ items.old
        ++ (address_slot on.now.machine.now on.now.choice.now slot
        ++ value on.now.machine.now on.now.choice.now None s
        (trigger_at (call_of on.now.machine.now on.now.choice.now Stf)))) }
{
    address_slot(items, on, slot)?;
    value(items, on, None, s, trigger_at(on.stf))
}

/// Puts the items of a step that saves the return address at the end.
pub fn save_ra(
    items: &mut Items<Item>,
    on: &SelectionTarget<'_>,
    slot: u32,
) -> Result<(), AllocError>
    ensures { IfOk result (λ x. items.new ≡ items.old
        ++ (address_slot on.now.machine.now on.now.choice.now slot
        ++ carry on.now.machine.now on.now.choice.now None (ItemSource.Port Source.Ra)
        (trigger_at (call_of on.now.machine.now on.now.choice.now Stf)))) }
{
    address_slot(items, on, slot)?;
    let src = ItemSource::Port(Source::Ra);
    carry(items, on, None, src, trigger_at(on.stf))
}

/// Puts the items of an operation of the set of units at the end.
pub fn apply(
    items: &mut Items<Item>,
    on: &SelectionTarget<'_>,
    f: Call,
    d: Place,
    a: RSrc,
    b: RSrc,
) -> Result<(), AllocError>
    requires place { is_place_of on.now.machine.now on.now.choice.now d ≡ true }
    requires first { is_src_of on.now.machine.now on.now.choice.now a ≡ true }
    requires second { is_src_of on.now.machine.now on.now.choice.now b ≡ true }
    ensures { IfOk result (λ x. items.new ≡ items.old
        ++ (operate on.now.machine.now on.now.choice.now f a b
        ++ result_items on.now.machine.now on.now.choice.now f d)) }
{
    operate(items, on, f, a, b)?;
    put_result(items, on, f, d)
}

/// Puts the items of a load at the end.
pub fn load(
    items: &mut Items<Item>,
    on: &SelectionTarget<'_>,
    f: Call,
    d: Place,
    a: RSrc,
) -> Result<(), AllocError>
    requires place { is_place_of on.now.machine.now on.now.choice.now d ≡ true }
    requires address { is_src_of on.now.machine.now on.now.choice.now a ≡ true }
    ensures { IfOk result (λ x. items.new ≡ items.old
        ++ (value on.now.machine.now on.now.choice.now None a (trigger_at f)
        ++ result_items on.now.machine.now on.now.choice.now f d)) }
{
    value(items, on, None, a, trigger_at(f))?;
    put_result(items, on, f, d)
}

/// Puts the items of a step that takes a word of the input at the end.
pub fn take(
    items: &mut Items<Item>,
    on: &SelectionTarget<'_>,
    f: Call,
    d: Place,
) -> Result<(), AllocError>
    requires place { is_place_of on.now.machine.now on.now.choice.now d ≡ true }
    ensures { IfOk result (λ x. items.new ≡ items.old
        ++ (constant on.now.machine.now on.now.choice.now None (LongValue.Word 0) (trigger_at f)
        ++ result_items on.now.machine.now on.now.choice.now f d)) }
{
    constant(items, on, None, LongValue::Word(0), trigger_at(f))?;
    put_result(items, on, f, d)
}

/// Puts the items of a store at the end.
pub fn store(
    items: &mut Items<Item>,
    on: &SelectionTarget<'_>,
    f: Call,
    a: RSrc,
    v: RSrc,
) -> Result<(), AllocError>
    requires address { is_src_of on.now.machine.now on.now.choice.now a ≡ true }
    requires word { is_src_of on.now.machine.now on.now.choice.now v ≡ true }
    ensures { IfOk result (λ x. items.new ≡ items.old
        ++ (value on.now.machine.now on.now.choice.now None a (operand_at f)
        ++ value on.now.machine.now on.now.choice.now None v (trigger_at f))) }
{
    value(items, on, None, a, operand_at(f))?;
    value(items, on, None, v, trigger_at(f))
}
