//! Ways: the moves that bring a word to a place.

ghost use Rattle.std.specs.Prelude.{◌≡◌, None, ◌∷◌, ◌++◌, [], IfOk, option_map, find};
ghost use Rattle.tta_moves.specs.Slots.{joined};
ghost use Rattle.tta_select.specs.Select.{filled, through_hub, long_hub, long_way, constant, carry};
ghost use Rattle.tta_select.specs.Select.{value};

use crate::target::SelectionTarget;
use std::alloc::AllocError;
use tta_arch::{Dest, GuardRef, Source, Template};
use tta_connect::Choice;
use tta_list::Items;
use tta_moves::parts::source_of_long;
use tta_moves::{Item, ItemSource, LongValue, is_joined};

/// The hub's register for ways.
pub const PASSING: u8 = 0;

/// A register of the hub, as a destination.
pub fn hub_at(c: &Choice, index: u8) -> Dest
    ensures { result ≡ Dest.Reg c.now.hub index }
{
    Dest::Reg { file: c.hub, index }
}

/// A register of the hub, as a source.
pub fn from_hub(c: &Choice, index: u8) -> ItemSource
    ensures { result ≡ ItemSource.Port (Source.Reg c.now.hub index) }
{
    ItemSource::Port(Source::Reg { file: c.hub, index })
}

/// Puts a move at the end.
pub fn put_move(
    items: &mut Items<Item>,
    guard: Option<GuardRef>,
    src: ItemSource,
    dst: Dest,
) -> Result<(), AllocError>
    ensures { IfOk result (λ x. items.new ≡ items.old ++ Item.Move guard src dst ∷ []) }
{
    items.push(Item::Move { guard, src, dst })?;
    Ok(())
}

/// Puts the two moves of a way through the hub at the end.
fn put_through_hub(
    items: &mut Items<Item>,
    on: &SelectionTarget<'_>,
    guard: Option<GuardRef>,
    src: ItemSource,
    dst: Dest,
) -> Result<(), AllocError>
    ensures { IfOk result (λ x. items.new ≡ items.old
        ++ through_hub on.now.machine.now on.now.choice.now guard src dst) }
{
    put_move(items, None, src, hub_at(on.choice, PASSING))?;
    put_move(items, guard, from_hub(on.choice, PASSING), dst)
}

/// Puts the way of a register, a result or the return address at the end.
pub fn carry(
    items: &mut Items<Item>,
    on: &SelectionTarget<'_>,
    guard: Option<GuardRef>,
    src: ItemSource,
    dst: Dest,
) -> Result<(), AllocError>
    ensures { IfOk result (λ x. items.new ≡ items.old
        ++ carry on.now.machine.now on.now.choice.now guard src dst) }
{
    if is_joined(on.machine, on.net, src, dst, guard) {
        return put_move(items, guard, src, dst);
    }
    put_through_hub(items, on, guard, src, dst)
}

/// The immediate register that a template fills, as a source.
fn filled(t: &Template) -> ItemSource
    ensures { result ≡ filled t.now }
{
    ItemSource::Port(Source::Imm {
        unit: t.imm,
        index: t.reg,
    })
}

/// The first template whose register some bus joins to a place, with a guard.
pub fn long_for<'a>(
    on: &SelectionTarget<'a>,
    dst: Dest,
    guard: Option<GuardRef>,
) -> Option<&'a Template>
    ensures { option_map (λ t. t.now) result
        ≡ find (λ t. joined on.now.machine.now (filled t) dst guard)
        on.now.machine.now.templates }
{
    let m = on.machine;
    m.templates
        .as_slice()
        .iter()
        .find(|t| is_joined(m, on.net, filled(t), dst, guard))
}

/// Puts a long immediate at the end.
fn put_long(items: &mut Items<Item>, t: &Template, value: LongValue) -> Result<(), AllocError>
    ensures { IfOk result (λ x. items.new
        ≡ items.old ++ Item.Long t.now.imm t.now.reg value ∷ []) }
{
    items.push(Item::Long {
        imm: t.imm,
        reg: t.reg,
        value,
    })?;
    Ok(())
}

/// Puts the way of a constant by an immediate register and the hub at the end.
fn put_long_hub(
    items: &mut Items<Item>,
    on: &SelectionTarget<'_>,
    guard: Option<GuardRef>,
    v: LongValue,
    dst: Dest,
) -> Result<(), AllocError>
    ensures { IfOk result (λ x. items.new ≡ items.old
        ++ long_hub on.now.machine.now on.now.choice.now guard v dst
        (find (λ t. joined on.now.machine.now (filled t) (Dest.Reg on.now.choice.now.hub 0) None)
        on.now.machine.now.templates)) }
{
    match long_for(on, hub_at(on.choice, PASSING), None) {
        None => put_move(items, guard, source_of_long(v), dst),
        Some(t) => {
            put_long(items, t, v)?;
            put_through_hub(items, on, guard, filled(t), dst)
        }
    }
}

/// Puts the way of a constant by an immediate register at the end.
fn put_long_way(
    items: &mut Items<Item>,
    on: &SelectionTarget<'_>,
    guard: Option<GuardRef>,
    v: LongValue,
    dst: Dest,
) -> Result<(), AllocError>
    ensures { IfOk result (λ x. items.new ≡ items.old
        ++ long_way on.now.machine.now on.now.choice.now guard v dst
        (find (λ t. joined on.now.machine.now (filled t) dst guard)
        on.now.machine.now.templates)) }
{
    match long_for(on, dst, guard) {
        None => put_long_hub(items, on, guard, v, dst),
        Some(t) => {
            put_long(items, t, v)?;
            put_move(items, guard, filled(t), dst)
        }
    }
}

/// Puts the way of a word or an address at the end.
pub fn constant(
    items: &mut Items<Item>,
    on: &SelectionTarget<'_>,
    guard: Option<GuardRef>,
    v: LongValue,
    dst: Dest,
) -> Result<(), AllocError>
    ensures { IfOk result (λ x. items.new ≡ items.old
        ++ constant on.now.machine.now on.now.choice.now guard v dst) }
{
    let src = source_of_long(v);
    if is_joined(on.machine, on.net, src, dst, guard) {
        return put_move(items, guard, src, dst);
    }
    if is_joined(on.machine, on.net, from_hub(on.choice, PASSING), dst, guard)
        && is_joined(on.machine, on.net, src, hub_at(on.choice, PASSING), None)
    {
        return put_through_hub(items, on, guard, src, dst);
    }
    put_long_way(items, on, guard, v, dst)
}
