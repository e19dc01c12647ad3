//! Which part of the frame space each item of a list uses: its slot, where the list shows the slots of
//! all its items, and else the whole space.

ghost use Rattle.std.specs.Prelude.{◌≡◌, ◌<◌, Some, true, slice_index, IfOk, IfSome};
ghost use Rattle.tta_moves.specs.Touches.{target_of_item};
ghost use Rattle.tta_reorder.specs.Channels.{starts, uses_frame};
ghost use Rattle.tta_reorder.specs.Slots.{constant_of, sure_constant, held_at, slot_with, after_item};
ghost use Rattle.tta_reorder.specs.Slots.{AreParts, AreSlots};

use crate::channels::PARTS;
use crate::operations::uses_frame;
use std::alloc::{AllocError, Global};
use tta_arch::{Dest, Machine, Op, Source};
use tta_list::entry_at;
use tta_moves::numbers::UNITS;
use tta_moves::parts::{is_unguarded, source_of};
use tta_moves::{Item, ItemSource};

/// The constant that a source is, if it is one.
fn constant_of(src: ItemSource) -> Option<u32>
    ensures { result ≡ constant_of src }
{
    match src {
        ItemSource::Port(Source::Value(word)) => Some(word),
        _ => None,
    }
}

/// The constant that an item brings in any case, if it brings one.
fn sure_constant(x: Item) -> Option<u32>
    ensures { result ≡ sure_constant x }
{
    if is_unguarded(x) {
        constant_of(source_of(x))
    } else {
        None
    }
}

/// The constant in the operand port of a unit, if it has one that is known.
fn held_at(held: &[Option<u32>], unit: u8) -> Option<u32>
    ensures { result ≡ held_at held.now unit }
{
    match held.get(usize::from(unit)) {
        None => None,
        Some(word) => *word,
    }
}

/// Goes past an item, which may bring a constant to an operand port.
fn hold(held: &mut Vec<Option<u32>>, x: Item)
    ensures { held.new.items ≡ after_item held.old.items x }
{
    if let Item::Move {
        dst: Dest::Operand { unit },
        ..
    } = x
    {
        let unit = usize::from(unit);
        if unit < held.len() {
            held[unit] = sure_constant(x);
        }
    }
}

/// The slot that an item uses, if it uses one that is known by what operand ports have.
fn slot_with(m: &Machine, held: &[Option<u32>], x: Item) -> Option<u32>
    ensures { result ≡ slot_with m.now x (λ unit. held_at held.now unit) }
{
    let Item::Move {
        dst: Dest::Trigger { unit, op },
        ..
    } = x
    else {
        return None;
    };
    let unit_there = entry_at(m.units.as_slice(), unit)?;
    let o = entry_at(unit_there.ops.as_slice(), op)?;
    match o.op {
        Op::Ldf => constant_of(source_of(x)),
        Op::Stf if o.arity == 2 => held_at(held, unit),
        _ => None,
    }
}

/// The part that an item uses by slots: its slot, where it uses one, and else 0. `None` where its slot
/// is not known or has no number.
fn part_with(m: &Machine, held: &[Option<u32>], x: Item) -> Option<u16>
    ensures few { IfSome result (λ p. p < 1024) }
    ensures slot { IfSome result (λ p. starts m.now uses_frame (target_of_item x) ≡ true
        → slot_with m.now x (λ unit. held_at held.now unit) ≡ Some p) }
{
    if !uses_frame(m, x) {
        return Some(0);
    }
    let slot = slot_with(m, held, x)?;
    if slot < PARTS as u32 {
        Some(slot as u16)
    } else {
        None
    }
}

/// The slot that each item of a list uses, and 0 where it uses none; none where the slot of an item is
/// not known or has no number. The only error is out of memory.
fn slots_of(alloc: Global, m: &Machine, items: &[Item]) -> Result<Option<Vec<u16>>, AllocError>
    ensures { IfOk result (λ o. IfSome o (λ v. AreSlots m.now items.now v.items)) }
{
    let mut held = vec![in alloc; None; UNITS]?;
    let mut slots = Vec::with_capacity(alloc, items.len())?;
    for x in items {
        let Some(part) = part_with(m, held.as_slice(), *x) else {
            return Ok(None);
        };
        slots.push(part)?;
        hold(&mut held, *x);
    }
    Ok(Some(slots))
}

/// The part of the frame space that each item of a list uses. The only error is out of memory.
pub fn parts_of(alloc: Global, m: &Machine, items: &[Item]) -> Result<Vec<u16>, AllocError>
    ensures { IfOk result (λ v. AreParts m.now items.now v.items) }
{
    match slots_of(alloc, m, items)? {
        Some(slots) => Ok(slots),
        None => Ok(vec![in alloc; 0; items.len()]?),
    }
}

/// The part that the item of a number uses, 0 past the end.
pub fn part_at(parts: &[u16], n: usize) -> u16
    ensures { result ≡ slice_index parts.now n }
{
    match parts.get(n) {
        None => 0,
        Some(part) => *part,
    }
}
