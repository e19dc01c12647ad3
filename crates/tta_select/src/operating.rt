//! Operations, and the ways of their results.

ghost use Rattle.std.specs.Prelude.{◌≡◌, ◌==◌, true, None, ◌++◌, IfOk};
ghost use Rattle.tta_select.specs.Select.{from_hub, home_at, operate, address_slot};
ghost use Rattle.tta_select.specs.Select.{merged};
ghost use Rattle.tta_select.specs.Select.{result as result_items};
ghost use Rattle.tta_select.specs.Relation.{is_place_of, is_src_of};

use crate::operands::{home_at, operand_at, shown_at, trigger_at, value};
use crate::putting::{carry, constant, from_hub, put_move};
use crate::target::SelectionTarget;
use std::alloc::AllocError;
use tta_connect::Call;
use tta_lir::{Place, RSrc};
use tta_list::Items;
use tta_moves::{Item, LongValue};

/// The hub's register in which a `when` makes its value.
pub const MERGING: u8 = 1;

/// Puts the operand, where an operation takes two words, and the trigger at the end.
pub fn operate(
    items: &mut Items<Item>,
    on: &SelectionTarget<'_>,
    f: Call,
    a: RSrc,
    b: RSrc,
) -> Result<(), AllocError>
    requires first { is_src_of on.now.machine.now on.now.choice.now a ≡ true }
    requires second { is_src_of on.now.machine.now on.now.choice.now b ≡ true }
    ensures { IfOk result (λ x. items.new ≡ items.old
        ++ operate on.now.machine.now on.now.choice.now f a b) }
{
    if f.does.arity == 2 {
        value(items, on, None, a, operand_at(f))?;
    }
    value(items, on, None, b, trigger_at(f))
}

/// Puts the way of a slot's address to the operand port of the store at the end.
pub fn address_slot(
    items: &mut Items<Item>,
    on: &SelectionTarget<'_>,
    slot: u32,
) -> Result<(), AllocError>
    ensures { IfOk result (λ x. items.new ≡ items.old
        ++ address_slot on.now.machine.now on.now.choice.now slot) }
{
    constant(items, on, None, LongValue::Word(slot), operand_at(on.stf))
}

/// Puts the way of a result to its place at the end.
pub fn put_result(
    items: &mut Items<Item>,
    on: &SelectionTarget<'_>,
    f: Call,
    d: Place,
) -> Result<(), AllocError>
    requires inside { is_place_of on.now.machine.now on.now.choice.now d ≡ true }
    ensures { IfOk result (λ x. items.new ≡ items.old
        ++ result_items on.now.machine.now on.now.choice.now f d) }
{
    match d {
        Place::Reg(k) => carry(items, on, None, shown_at(f), home_at(on.choice, k)),
        Place::Frame(slot) => {
            address_slot(items, on, slot)?;
            carry(items, on, None, shown_at(f), trigger_at(on.stf))
        }
    }
}

/// Puts the way of the word in the hub's register for merging to its place at the end.
pub fn put_merged(
    items: &mut Items<Item>,
    on: &SelectionTarget<'_>,
    d: Place,
) -> Result<(), AllocError>
    requires inside { is_place_of on.now.machine.now on.now.choice.now d ≡ true }
    ensures { IfOk result (λ x. items.new ≡ items.old
        ++ merged on.now.machine.now on.now.choice.now d) }
{
    match d {
        Place::Reg(k) => put_move(
            items,
            None,
            from_hub(on.choice, MERGING),
            home_at(on.choice, k),
        ),
        Place::Frame(slot) => {
            address_slot(items, on, slot)?;
            put_move(
                items,
                None,
                from_hub(on.choice, MERGING),
                trigger_at(on.stf),
            )
        }
    }
}
