//! What is told of the blocks of a run, as text.

ghost use Rattle.std.specs.Prelude.{◌≡◌, ◌≤◌, ◌++◌, length, All, OnOk};
ghost use Rattle.tta_block_profile.specs.Report.{block_line, blocks_text, told_text};

use crate::blocks::{Blocks, sum_at};
use crate::costly::Spent;
use std::alloc::AllocError;
use tta_profile::{Profiled, push_share, push_uses};
use tta_stages::{push_block, push_part_at, push_range_at};

/// Puts a block: what it stands for, where its code is, and how many cycles were spent in it.
#[tactic(auto, unfolding(crate::specs::Report::block_line))]
fn push_line(
    out: &mut Vec<u8>,
    profiled: &Profiled<'_>,
    blocks: &Blocks<'_>,
    k: usize,
) -> Result<(), AllocError>
    requires few { length profiled.now.counts.now.executed ≤ 65536 }
    ensures { OnOk result (out.new.items ≡ out.old.items
        ++ block_line profiled.now.counts.now profiled.now.whole blocks.now.program.now
        blocks.now.parts.now blocks.now.starts.now blocks.now.placed.now k) }
{
    out.extend_from_slice(b"block ")?;
    push_block(out, k as u128)?;
    push_part_at(out, blocks.program, blocks.parts, k)?;
    push_range_at(out, blocks.starts, blocks.placed, k)?;
    out.extend_from_slice(b" spent ")?;
    push_share(out, sum_at(profiled.counts, blocks, k), profiled.whole)?;
    out.extend_from_slice(b"\n")
}

/// Puts blocks in this order.
fn push_lines(
    out: &mut Vec<u8>,
    profiled: &Profiled<'_>,
    blocks: &Blocks<'_>,
    order: &[Spent],
) -> Result<(), AllocError>
    requires few { length profiled.now.counts.now.executed ≤ 65536 }
    ensures { OnOk result (out.new.items ≡ out.old.items
        ++ blocks_text profiled.now.counts.now profiled.now.whole blocks.now.program.now
        blocks.now.parts.now blocks.now.starts.now blocks.now.placed.now order.now) }
{
    for s in order {
        push_line(out, profiled, blocks, s.block)?;
    }
    Ok(())
}

/// Puts all that is told: how many cycles were made, what was used, and the blocks in this order.
#[tactic(auto, unfolding(crate::specs::Report::told_text))]
pub fn push_told(
    out: &mut Vec<u8>,
    profiled: &Profiled<'_>,
    blocks: &Blocks<'_>,
    order: &[Spent],
) -> Result<(), AllocError>
    requires few { length profiled.now.words.now ≤ 65536 }
    requires size { length profiled.now.counts.now.executed ≡ length profiled.now.words.now }
    requires low { All (λ i. length i.moves ≤ 16) profiled.now.words.now }
    ensures { OnOk result (out.new.items ≡ out.old.items ++ told_text
        profiled.now.m.now profiled.now.words.now profiled.now.counts.now profiled.now.whole
        blocks.now.program.now blocks.now.parts.now blocks.now.starts.now blocks.now.placed.now
        order.now) }
{
    push_uses(out, profiled)?;
    push_lines(out, profiled, blocks, order)
}
