//! The ways of operands and results.

ghost use Rattle.std.specs.Prelude.{◌≡◌, ◌<◌, true, None, ◌++◌, IfOk, get_or, length};
ghost use Rattle.tta_select.specs.Select.{home_pair, home_at, operand_at};
ghost use Rattle.tta_select.specs.Select.{trigger_at, shown_at, fetch, value};
ghost use Rattle.tta_select.specs.Relation.{is_src_of};

use crate::putting::{carry, constant};
use crate::target::SelectionTarget;
use std::alloc::AllocError;
use tta_arch::{Dest, GuardRef, Source};
use tta_connect::{Call, Choice};
use tta_lir::{Place, RSrc};
use tta_list::Items;
use tta_moves::{Item, ItemSource, LongValue};

/// The operand port of the unit that is called.
pub fn operand_at(f: Call) -> Dest
    ensures { result ≡ operand_at f }
{
    Dest::Operand { unit: f.unit }
}

/// The trigger port of the unit that is called, with its operation.
pub fn trigger_at(f: Call) -> Dest
    ensures { result ≡ trigger_at f }
{
    Dest::Trigger {
        unit: f.unit,
        op: f.op,
    }
}

/// The result port of the unit that is called.
pub fn shown_at(f: Call) -> ItemSource
    ensures { result ≡ shown_at f }
{
    ItemSource::Port(Source::Shown { unit: f.unit })
}

/// A home register by its number.
pub fn home_pair(c: &Choice, k: u32) -> (u8, u8)
    requires { k < length c.now.homes }
    ensures { result ≡ get_or c.now.homes k (0, 0) }
{
    c.homes.as_slice()[k as usize]
}

/// A home register as a destination.
pub fn home_at(c: &Choice, k: u32) -> Dest
    requires { k < length c.now.homes }
    ensures { result ≡ Dest.Reg (get_or c.now.homes k (0, 0)).0 (get_or c.now.homes k (0, 0)).1 }
{
    let (file, index) = home_pair(c, k);
    Dest::Reg { file, index }
}

/// Puts the load of a slot and the way of its word at the end.
pub fn fetch(
    items: &mut Items<Item>,
    on: &SelectionTarget<'_>,
    guard: Option<GuardRef>,
    slot: u32,
    dst: Dest,
) -> Result<(), AllocError>
    ensures { IfOk result (λ x. items.new ≡ items.old
        ++ fetch on.now.machine.now on.now.choice.now guard slot dst) }
{
    constant(items, on, None, LongValue::Word(slot), trigger_at(on.ldf))?;
    carry(items, on, guard, shown_at(on.ldf), dst)
}

/// Puts the way of an operand to a place at the end.
pub fn value(
    items: &mut Items<Item>,
    on: &SelectionTarget<'_>,
    guard: Option<GuardRef>,
    o: RSrc,
    dst: Dest,
) -> Result<(), AllocError>
    requires inside { is_src_of on.now.machine.now on.now.choice.now o ≡ true }
    ensures { IfOk result (λ x. items.new ≡ items.old
        ++ value on.now.machine.now on.now.choice.now guard o dst) }
{
    match o {
        RSrc::Word(w) => constant(items, on, guard, LongValue::Word(w), dst),
        RSrc::At(Place::Reg(k)) => {
            let (file, index) = home_pair(on.choice, k);
            let src = ItemSource::Port(Source::Reg { file, index });
            carry(items, on, guard, src, dst)
        }
        RSrc::At(Place::Frame(slot)) => fetch(items, on, guard, slot, dst),
    }
}
