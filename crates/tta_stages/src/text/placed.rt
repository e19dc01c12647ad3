//! The code, block by block and cycle by cycle.

ghost use Rattle.std.specs.Prelude.{◌≡◌, ◌++◌, OnOk};
ghost use Rattle.tta_ops.specs.Set.{stated};
ghost use Rattle.tta_stages.specs.ListText.{row_text, row_at, rows_text, placed_text};
ghost use Rattle.tta_stages.specs.ListText.{placed_at, code_rows};

use crate::text::named::{Of, push_named};
use crate::text::register::push_range;
use crate::text::words::push_count;
use std::alloc::AllocError;
use tta_arch::Machine;
use tta_code::Instruction;
use tta_disasm::push_instruction;
use tta_moves::Placed;
use tta_ops::UnitSet;

/// Puts an instruction, after its address.
#[tactic(auto, unfolding(crate::specs::ListText::row_text))]
fn push_row(
    out: &mut Vec<u8>,
    units: &UnitSet,
    m: &Machine,
    address: usize,
    i: &Instruction,
) -> Result<(), AllocError>
    ensures { OnOk result (out.new.items ≡ out.old.items
        ++ row_text (stated unit_meaning units.now) m.now address i.now) }
{
    push_count(out, b" ", address as u128)?;
    out.extend_from_slice(b" : ")?;
    push_instruction(out, units, m, i)
}

/// Puts the instruction of an address, if there is one.
fn push_row_at(
    out: &mut Vec<u8>,
    units: &UnitSet,
    m: &Machine,
    words: &[Instruction],
    address: usize,
) -> Result<(), AllocError>
    ensures { OnOk result (out.new.items ≡ out.old.items
        ++ row_at (stated unit_meaning units.now) m.now words.now address) }
{
    match words.get(address) {
        Some(i) => push_row(out, units, m, address, i),
        None => Ok(()),
    }
}

/// Puts so many instructions from an address on.
fn push_rows(
    out: &mut Vec<u8>,
    units: &UnitSet,
    m: &Machine,
    words: &[Instruction],
    start: u32,
    count: u32,
) -> Result<(), AllocError>
    ensures { OnOk result (out.new.items ≡ out.old.items
        ++ rows_text (stated unit_meaning units.now) m.now words.now start count) }
{
    for cycle in 0..count {
        push_row_at(out, units, m, words, start as usize + cycle as usize)?;
    }
    Ok(())
}

/// Puts the code of a block with its heading.
#[tactic(auto, unfolding(crate::specs::ListText::placed_text))]
fn push_placed(
    out: &mut Vec<u8>,
    units: &UnitSet,
    of: &Of<'_>,
    words: &[Instruction],
    k: usize,
    range: (u32, u32),
) -> Result<(), AllocError>
    ensures { OnOk result (out.new.items ≡ out.old.items
        ++ placed_text (stated unit_meaning units.now) of.now.m.now of.now.p.now of.now.parts.now
        words.now k range.0 range.1) }
{
    out.extend_from_slice(b"placed ")?;
    push_named(out, of, k)?;
    push_range(out, range.0, range.1)?;
    out.extend_from_slice(b"\n")?;
    push_rows(out, units, of.m, words, range.0, range.1)
}

/// Puts the code of a block where it begins at an address.
fn push_placed_at(
    out: &mut Vec<u8>,
    units: &UnitSet,
    of: &Of<'_>,
    words: &[Instruction],
    starts: &[u32],
    block: (usize, &Placed),
) -> Result<(), AllocError>
    ensures { OnOk result (out.new.items ≡ out.old.items
        ++ placed_at (stated unit_meaning units.now) of.now.m.now of.now.p.now of.now.parts.now
        words.now starts.now block.entry.0 block.entry.1.now) }
{
    match starts.get(block.0) {
        Some(start) => push_placed(out, units, of, words, block.0, (*start, block.1.length)),
        None => Ok(()),
    }
}

/// Puts the code of each block.
pub fn push_blocks(
    out: &mut Vec<u8>,
    units: &UnitSet,
    of: &Of<'_>,
    words: &[Instruction],
    starts: &[u32],
    placed: &[Placed],
) -> Result<(), AllocError>
    ensures { OnOk result (out.new.items ≡ out.old.items
        ++ code_rows (stated unit_meaning units.now) of.now.m.now of.now.p.now of.now.parts.now
        words.now starts.now placed.now) }
{
    for (k, p) in placed.iter().enumerate() {
        push_placed_at(out, units, of, words, starts, (k, p))?;
    }
    Ok(())
}
