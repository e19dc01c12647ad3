//! Basic blocks.

ghost use Rattle.std.specs.Prelude.{◌≡◌, ◌++◌, ◌<◌, ◌^◌, List, length, IfOk, OnOk};
ghost use Rattle.tta_flow.specs.Blocks.{IsFlow, AreBlocks};
ghost use Rattle.tta_flow.specs.Laws.{FlowLaws};
ghost use Rattle.tta_flow.specs.Paths.{IsClosed};

use crate::firsts::firsts_of;
use crate::reach::reached;
use crate::runs::runs_of;
use std::alloc::{AllocError, Global};
use tta_list::Items;
use tta_program::{Program, Step};

/// Steps `first` to `last` of the procedure `owner`.
#[derive(Clone, Copy, Debug, PartialEq, Eq)]
pub struct Block {
    pub owner: u32,
    pub first: u32,
    pub last: u32,
}

/// The blocks of a program in the order of its text.
#[derive(Drop)]
pub struct Flow {
    pub blocks: Items<Block>,
}

impl Flow {
    /// The blocks of a program.
    pub fn of(alloc: Global, p: &Program) -> Result<Self, AllocError>
        ensures { IfOk result (λ f. IsFlow p.now f.blocks) }
    {
        let mut blocks = Items::new(alloc);
        let procs = p.procs.as_slice();
        for owner in 0..procs.len() {
            let more = blocks_of(alloc, owner as u32, procs[owner].steps.as_slice())?;
            append(&mut blocks, more.as_slice())?;
        }
        Ok(Flow { blocks })
    }
}

/// The blocks of a procedure.
fn blocks_of(alloc: Global, owner: u32, steps: &[Step]) -> Result<Vec<Block>, AllocError>
    requires closed { IsClosed steps.now }
    requires few { length steps.now < 2 ^ 32 }
    ensures { IfOk result (λ blocks. AreBlocks owner steps.now blocks.items) }
{
    let reached = reached(alloc, steps)?;
    let firsts = firsts_of(alloc, steps, &reached)?;
    let blocks = runs_of(alloc, owner, steps.len(), &reached, &firsts)?;
    Ok(blocks)
}

/// Puts blocks after others. It fails only where there is no memory.
fn append(blocks: &mut Items<Block>, more: &[Block]) -> Result<(), AllocError>
    ensures { OnOk result (blocks.new ≡ blocks.old ++ more.now) }
{
    for block in more {
        blocks.push(*block)?;
    }
    Ok(())
}

/// What holds of the blocks of every program.
pub fn flows_keep_laws()
    ensures { (p : Program) (blocks : List Block) → IsFlow p blocks → FlowLaws p blocks }
{}
