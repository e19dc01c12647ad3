//! From a program to its register code, as it is told.

ghost use Rattle.std.specs.Prelude.{◌≡◌, IfOk};
ghost use Rattle.tta_program.specs.Rules.{IsProgram};
ghost use Rattle.tta_flow.specs.Blocks.{IsFlow};
ghost use Rattle.tta_lower.specs.LoweringInput.{first_by};
ghost use Rattle.tta_lower.specs.Lower.{parts};

use std::alloc::{AllocError, Global};
use tta_alloc::{Homes, Intervals};
use tta_flow::{Flow, Live};
use tta_lir::Rir;
use tta_lower::{Part, all_parts};
use tta_program::Program;

/// A program on the way to its register code.
#[derive(Drop)]
pub struct Lowered {
    /// The basic blocks of the program.
    pub flow: Flow,
    /// Which variables are live where.
    pub live: Live,
    /// The intervals of the variables.
    pub intervals: Intervals,
    /// The homes of the variables.
    pub homes: Homes,
    /// What the blocks of the register code stand for, one after another.
    pub parts: Vec<Part>,
    /// The register code.
    pub code: Rir,
}

/// The parts of a program in the order of their code. It fails only where there is no memory.
pub fn parts_of(
    alloc: Global,
    p: &Program,
    flow: &Flow,
    live: &Live,
) -> Result<Vec<Part>, AllocError>
    requires program { IsProgram p.now }
    requires flow { IsFlow p.now flow.now.blocks }
    ensures { IfOk result (λ all. all.items
        ≡ parts p.now flow.now.blocks (first_by p.now live.now)) }
{
    let all = all_parts(alloc, p, live, flow.blocks.as_slice())?;
    Ok(all)
}
