//! The items of lists.

ghost use Rattle.std.specs.Prelude.{◌≡◌, ◌++◌, OnOk};
ghost use Rattle.tta_ops.specs.Set.{stated};
ghost use Rattle.tta_disasm.specs.Canonical.{guard_text};
ghost use Rattle.tta_stages.specs.ListText.{address_text, move_item_text, value_text};
ghost use Rattle.tta_stages.specs.ListText.{long_item_text, item_text, item_line, items_text};

use crate::text::words::push_count;
use std::alloc::AllocError;
use tta_arch::{Dest, GuardRef, Machine, Source};
use tta_code::Move;
use tta_disasm::{file_name, imm_name, push_move, push_place};
use tta_moves::{Item, ItemSource, LongValue};
use tta_ops::UnitSet;

/// Puts a guard and a blank, if there is a guard.
fn push_guard(out: &mut Vec<u8>, m: &Machine, guard: Option<GuardRef>) -> Result<(), AllocError>
    ensures { OnOk result (out.new.items ≡ out.old.items ++ guard_text m.now guard) }
{
    let Some(g) = guard else {
        return Ok(());
    };
    let sense: &[u8] = if g.inverted { b"!" } else { b"?" };
    out.extend_from_slice(sense)?;
    push_place(out, file_name(m, g.file), g.index)?;
    out.extend_from_slice(b" ")
}

/// Puts a move of the address of a block: its guard, the block's name, and the destination.
#[tactic(auto, unfolding(crate::specs::ListText::address_text))]
fn push_address(
    out: &mut Vec<u8>,
    units: &UnitSet,
    m: &Machine,
    guard: Option<GuardRef>,
    block: u32,
    dst: Dest,
) -> Result<(), AllocError>
    ensures { OnOk result (out.new.items ≡ out.old.items
        ++ address_text (stated unit_meaning units.now) m.now guard block dst) }
{
    push_guard(out, m, guard)?;
    out.extend_from_slice(b"b")?;
    let v = Move {
        guard: None,
        src: Source::Value(block),
        dst,
    };
    push_move(out, units, m, v)
}

/// Puts a move.
fn push_move_item(
    out: &mut Vec<u8>,
    units: &UnitSet,
    m: &Machine,
    guard: Option<GuardRef>,
    src: ItemSource,
    dst: Dest,
) -> Result<(), AllocError>
    ensures { OnOk result (out.new.items ≡ out.old.items
        ++ move_item_text (stated unit_meaning units.now) m.now guard src dst) }
{
    match src {
        ItemSource::Port(src) => push_move(out, units, m, Move { guard, src, dst }),
        ItemSource::Address(block) => push_address(out, units, m, guard, block, dst),
    }
}

/// Puts the word of a long immediate.
fn push_value(out: &mut Vec<u8>, value: LongValue) -> Result<(), AllocError>
    ensures { OnOk result (out.new.items ≡ out.old.items ++ value_text value) }
{
    match value {
        LongValue::Word(word) => push_count(out, b"long ", u128::from(word)),
        LongValue::Address(block) => push_count(out, b"long b", u128::from(block)),
    }
}

/// Puts a long immediate.
#[tactic(auto, unfolding(crate::specs::ListText::long_item_text))]
fn push_long(
    out: &mut Vec<u8>,
    m: &Machine,
    imm: u8,
    reg: u8,
    value: LongValue,
) -> Result<(), AllocError>
    ensures { OnOk result (out.new.items ≡ out.old.items
        ++ long_item_text m.now imm reg value) }
{
    push_value(out, value)?;
    out.extend_from_slice(b" -> ")?;
    push_place(out, imm_name(m, imm), reg)
}

/// Puts an item.
fn push_item(out: &mut Vec<u8>, units: &UnitSet, m: &Machine, x: Item) -> Result<(), AllocError>
    ensures { OnOk result (out.new.items ≡ out.old.items
        ++ item_text (stated unit_meaning units.now) m.now x) }
{
    match x {
        Item::Move { guard, src, dst } => push_move_item(out, units, m, guard, src, dst),
        Item::Long { imm, reg, value } => push_long(out, m, imm, reg, value),
    }
}

/// Puts an item as a line.
#[tactic(auto, unfolding(crate::specs::ListText::item_line))]
fn push_line(out: &mut Vec<u8>, units: &UnitSet, m: &Machine, x: Item) -> Result<(), AllocError>
    ensures { OnOk result (out.new.items ≡ out.old.items
        ++ item_line (stated unit_meaning units.now) m.now x) }
{
    out.extend_from_slice(b" ")?;
    push_item(out, units, m, x)?;
    out.extend_from_slice(b"\n")
}

/// Puts items, each as a line.
pub fn push_items(
    out: &mut Vec<u8>,
    units: &UnitSet,
    m: &Machine,
    items: &[Item],
) -> Result<(), AllocError>
    ensures { OnOk result (out.new.items ≡ out.old.items
        ++ items_text (stated unit_meaning units.now) m.now items.now) }
{
    for x in items {
        push_line(out, units, m, *x)?;
    }
    Ok(())
}
