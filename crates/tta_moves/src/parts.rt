//! An item by its parts.

ghost use Rattle.std.specs.Prelude.{◌≡◌};
ghost use Rattle.tta_arch.specs.Effects.{op_at};
ghost use Rattle.tta_moves.specs.Touches.{source_of_long, source_of, is_unguarded, is_control};
ghost use Rattle.tta_moves.specs.Forms.{sure_source};

use crate::items::{Item, ItemSource, LongValue};
use tta_arch::{Dest, Machine, Source, UnitOp};
use tta_list::entry_at;

/// A long immediate as a source: a word, or the address of a block.
pub fn source_of_long(value: LongValue) -> ItemSource
    ensures { result ≡ source_of_long value }
{
    match value {
        LongValue::Word(word) => ItemSource::Port(Source::Value(word)),
        LongValue::Address(block) => ItemSource::Address(block),
    }
}

/// Where an item takes its word from.
pub fn source_of(x: Item) -> ItemSource
    ensures { result ≡ source_of x }
{
    match x {
        Item::Move { src, .. } => src,
        Item::Long { value, .. } => source_of_long(value),
    }
}

/// What an item surely brings: nothing where it has a guard.
pub fn sure_source(x: Item) -> Option<ItemSource>
    ensures { result ≡ sure_source x }
{
    match x {
        Item::Move { guard, src, .. } => match guard {
            None => Some(src),
            Some(_) => None,
        },
        Item::Long { value, .. } => Some(source_of_long(value)),
    }
}

/// Whether an item has no guard.
pub fn is_unguarded(x: Item) -> bool
    ensures { result ≡ is_unguarded x }
{
    match x {
        Item::Move { guard, .. } => guard.is_none(),
        Item::Long { .. } => true,
    }
}

/// Whether an item is a jump, a call or a halt.
pub fn is_control(x: Item) -> bool
    ensures { result ≡ is_control x }
{
    match x {
        Item::Move { dst, .. } => matches!(dst, Dest::Jump | Dest::Call | Dest::Halt),
        Item::Long { .. } => false,
    }
}

/// The operation of a unit by its number, if the unit has it.
pub fn operation(m: &Machine, unit: u8, op: u8) -> Option<UnitOp>
    ensures { result ≡ op_at m.now unit op }
{
    let Some(u) = entry_at(m.units.as_slice(), unit) else {
        return None;
    };
    let Some(o) = entry_at(u.ops.as_slice(), op) else {
        return None;
    };
    Some(*o)
}
