//! The steps that the blocks of each procedure hold.

ghost use Rattle.std.specs.Prelude.{◌≡◌, ◌<◌, ℕ, true, length, IfOk, OnOk};
ghost use Rattle.tta_flow.specs.Blocks.{Holds};
ghost use Rattle.tta_flow.specs.Table.{is_listed};
ghost use Rattle.tta_alloc.specs.Ranges.{AddsRange};

use std::alloc::{AllocError, Global};
use tta_flow::{Block, PlaceLists};

/// For each procedure the steps that its blocks hold.
pub fn steps_of(alloc: Global, blocks: &[Block], procs: usize) -> Result<PlaceLists, AllocError>
    ensures size { IfOk result (λ t. length t.lists.items ≡ procs) }
    ensures sound { IfOk result (λ t. (o i : ℕ) → o < procs
        → is_listed t o i ≡ true → Holds blocks.now o i) }
    ensures whole { IfOk result (λ t. (o i : ℕ) → o < procs
        → Holds blocks.now o i → is_listed t o i ≡ true) }
{
    let mut table = PlaceLists::new(alloc, procs)?;
    for block in blocks {
        add_steps(&mut table, *block)?;
    }
    Ok(table)
}

/// Puts the steps of a block into the list of its procedure.
fn add_steps(table: &mut PlaceLists, block: Block) -> Result<(), AllocError>
    ensures { OnOk result (AddsRange block.owner block.first block.last table.old table.new) }
{
    for at in block.first as usize..block.last as usize + 1 {
        table.add(block.owner as usize, at)?;
    }
    Ok(())
}
