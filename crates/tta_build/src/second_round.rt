//! A second round of a list, by the latest cycles of its placement.

ghost use Rattle.std.specs.Prelude.{◌≡◌, true, IfOk, IfSome};
ghost use Rattle.tta_moves.specs.Slots.{is_list};
ghost use Rattle.tta_build.specs.Derivation.{IsRound};
ghost use Rattle.tta_build.specs.Placing.{IsRoundFit};

use crate::keeping::beside;
use crate::rounds::Rounder;
use crate::trail::Round;
use std::alloc::{AllocError, Global};
use tta_connect::BuildTarget;
use tta_moves::{BlockList, Placed};
use tta_sched::Placer;

/// Up to so many items another round is worth its time in an innermost loop.
const MOST_ITEMS: usize = 140;

/// Another round is worth its time where the placement is longer than the least cycles by one part in so
/// many of them.
const GAIN_PARTS: u32 = 3;

/// Whether another round is worth its time for a list of so many items in an innermost loop: by how many
/// cycles its placement takes, and how many any takes at the least.
pub fn promises_gain(items: usize, length: u32, least: u32) -> bool {
    let more = length.saturating_sub(least);
    items <= MOST_ITEMS && more.saturating_mul(GAIN_PARTS) >= least
}

/// A round, and the placement of the list after it.
#[derive(Drop)]
pub struct RoundFit {
    pub round: Round,
    pub placed: Placed,
}

/// A round with a first fit of the list after it. It fails only where there is no memory.
fn round_fit(
    alloc: Global,
    placer: &mut Placer,
    on: &BuildTarget<'_>,
    list: &BlockList,
    round: Round,
) -> Result<RoundFit, AllocError>
    requires list { is_list on.now.joined.machine.now list.now.items ≡ true }
    requires round { IsRound on.now.joined.machine.now list.now round }
    ensures { IfOk result (λ r. IsRoundFit on.now.joined.machine.now list.now r) }
{
    let placed = placer.place(alloc, round.last(), &on.joined);
    let (round, placed) = beside(round, placed)?;
    Ok(RoundFit { round, placed })
}

/// The round of a list by the latest cycles of its placement; none where it stands in this order. It fails
/// only where there is no memory.
fn by_latest(
    alloc: Global,
    placer: &mut Placer,
    rounder: &mut Rounder,
    on: &BuildTarget<'_>,
    list: &BlockList,
) -> Result<Option<Round>, AllocError>
    requires list { is_list on.now.joined.machine.now list.now.items ≡ true }
    ensures { IfOk result (λ o. IfSome o (λ r. IsRound on.now.joined.machine.now list.now r)) }
{
    let placed = placer.place(alloc, list, &on.joined)?;
    let round = rounder.by_latest(alloc, on, list, &placed)?;
    Ok(round)
}

/// The round of a list by the latest cycles of its placement, with a first fit of the list after it; none
/// where the list stands in this order. It fails only where there is no memory.
pub fn second_round(
    alloc: Global,
    placer: &mut Placer,
    rounder: &mut Rounder,
    on: &BuildTarget<'_>,
    list: &BlockList,
) -> Result<Option<RoundFit>, AllocError>
    requires list { is_list on.now.joined.machine.now list.now.items ≡ true }
    ensures { let m = on.now.joined.machine.now in
        IfOk result (λ o. IfSome o (λ r. IsRoundFit m list.now r)) }
{
    match by_latest(alloc, placer, rounder, on, list)? {
        Some(round) => {
            let fit = round_fit(alloc, placer, on, list, round)?;
            Ok(Some(fit))
        }
        None => Ok(None),
    }
}
