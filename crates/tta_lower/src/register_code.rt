//! The register code of a program.

ghost use Rattle.std.specs.Prelude.{◌≡◌, IfOk, IfErr};
ghost use Rattle.tta_program.specs.Rules.{IsProgram};
ghost use Rattle.tta_flow.specs.Blocks.{IsFlow};
ghost use Rattle.tta_flow.specs.Live.{IsLive};
ghost use Rattle.tta_alloc.specs.Homes.{count_of};
ghost use Rattle.tta_alloc.specs.Allotted.{SlotsAsScanned};
ghost use Rattle.tta_lower.specs.LoweringInput.{known_by};
ghost use Rattle.tta_lower.specs.Lower.{lowered};
ghost use Rattle.tta_lower.specs.Statement.{IsCodeOf};
ghost use Rattle.tta_lower.specs.Statement.{IsCause};

use crate::error::LowerError;
use crate::laying::frames_within;
use crate::made::blocks_for;
use crate::numbers::numbers_of;
use crate::parts::all_parts;
use crate::plan::Plan;
use std::alloc::{AllocError, Global};
use tta_alloc::Homes;
use tta_flow::{Block, Flow, Live};
use tta_lir::Rir;
use tta_list::Items;
use tta_program::Program;

/// The register code of a program, by its blocks, the liveness and the homes of its variables, for
/// so many words of the frame space. `FrameFull` comes exactly where the frames need more words.
pub fn lower(
    alloc: Global,
    p: &Program,
    f: &Flow,
    live: &Live,
    homes: &Homes,
    frame_words: u32,
) -> Result<Rir, LowerError>
    requires flow { IsFlow p.now f.now.blocks }
    requires live { IsLive p.now live.now }
    requires homes { SlotsAsScanned p.now (count_of homes.now) homes.now }
    ensures code { IfOk result (λ r. IsCodeOf p.now f.now.blocks live.now homes.now frame_words r) }
    ensures cause { IfErr result (λ e. IsCause p.now frame_words e) }
{
    let firsts = frames_within(alloc, p, frame_words)?;
    let plan = Plan {
        p,
        live,
        homes,
        firsts: firsts.as_slice(),
    };
    let code = code_of(alloc, &plan, f.blocks.as_slice())?;
    Ok(code)
}

/// The register code of a program whose frames are laid.
fn code_of(alloc: Global, plan: &Plan<'_>, blocks: &[Block]) -> Result<Rir, AllocError>
    requires sound { IsProgram plan.now.p.now }
    requires flow { IsFlow plan.now.p.now blocks.now }
    requires live { IsLive plan.now.p.now plan.now.live.now }
    requires homes { let h = plan.now.homes.now in
        SlotsAsScanned plan.now.p.now (count_of h) h }
    ensures { IfOk result (λ r. r ≡ lowered plan.now.p.now
        (known_by plan.now.p.now blocks.now plan.now.live.now plan.now.homes.now)
        (count_of plan.now.homes.now)) }
{
    let parts = all_parts(alloc, plan.p, plan.live, blocks)?;
    let numbers = numbers_of(alloc, plan.p, parts.as_slice())?;
    let blocks = blocks_for(alloc, plan, &numbers, parts.as_slice())?;
    Ok(Rir {
        blocks: Items::of(blocks),
    })
}
