//! The candidates of each block are placed, and the shortest placement stays.

ghost use Rattle.std.specs.Prelude.{◌≡◌, true, IfOk};
ghost use Rattle.std.specs.List.{list_all};
ghost use Rattle.tta_moves.specs.Slots.{is_list};
ghost use Rattle.tta_build.specs.Derivation.{AreTrailsOf, last_of};
ghost use Rattle.tta_arch.specs.Machine.{Machine};
ghost use Rattle.tta_moves.specs.declared.items.BlockList.{BlockList};
ghost use Rattle.tta_build.specs.Placing.{IsFitOf, IsBest, IsRoundFit};
ghost use Rattle.tta_build.specs.Placing.{ArePlacements, ArePlanned};

use crate::candidates::Candidates;
use crate::inner_loops::{in_inner_loops, is_marked};
use crate::keeping::{beside, chosen};
use crate::least::Earliest;
use crate::second_round::{RoundFit, promises_gain, second_round};
use crate::trail::{Derivation, Rounds, are_served};
use std::alloc::{AllocError, Global};
use tta_arch::Machine;
use tta_connect::BuildTarget;
use tta_moves::{BlockList, Placed};
use tta_sched::Placer;

/// The placement of a block, and how its list came of the selected one.
#[derive(Drop)]
pub struct Chosen {
    pub trail: Derivation,
    pub placed: Placed,
}

/// The lists of a program's blocks and their placements, each block at its number.
#[derive(Drop)]
pub struct Planned {
    /// The lists as they are selected.
    pub selected: Vec<BlockList>,
    /// How the list that is placed came of each of them. A direct pair has none: its list is placed as
    /// it is selected.
    pub trails: Vec<Derivation>,
    /// The placements.
    pub placed: Vec<Placed>,
}

/// A first fit of the list to which a trail leads. It fails only where there is no memory.
fn fit_of(
    alloc: Global,
    placer: &mut Placer,
    on: &BuildTarget<'_>,
    trail: Derivation,
) -> Result<Chosen, AllocError>
    requires list { is_list on.now.joined.machine.now (last_of trail).items ≡ true }
    ensures { IfOk result (λ r. IsFitOf on.now.joined.machine.now trail r) }
{
    let placed = placer.place(alloc, trail.last(), &on.joined);
    let (trail, placed) = beside(trail, placed)?;
    Ok(Chosen { trail, placed })
}

/// The shorter of the placement so far and first fits of more candidates of a block, the first of them
/// on a tie. Only the shortest so far is kept beside the one that is made.
fn shortest(
    alloc: Global,
    placer: &mut Placer,
    on: &BuildTarget<'_>,
    b: &BlockList,
    so_far: Chosen,
    others: Vec<Derivation>,
) -> Result<Chosen, AllocError>
    requires list { is_list on.now.joined.machine.now b.now.items ≡ true }
    requires best { IsBest on.now.joined.machine.now b.now so_far }
    requires others { AreTrailsOf on.now.joined.machine.now b.now others.items }
    ensures { IfOk result (λ r. IsBest on.now.joined.machine.now b.now r) }
{
    let mut best = so_far;
    for trail in others {
        let other = fit_of(alloc, placer, on, trail);
        let (one, other) = beside(best, other)?;
        best = chosen(other.placed.length < one.placed.length, one, other);
    }
    Ok(best)
}

/// The shorter of a placement and that with another second round of its trail.
fn shorter_with(so_far: Chosen, fit: RoundFit) -> Chosen
    ensures { (m : Machine) (b : BlockList) → IsBest m b so_far
        → IsRoundFit m so_far.trail.rounds.first.passed.lively fit → IsBest m b result }
{
    if fit.placed.length >= so_far.placed.length {
        return so_far;
    }
    let Chosen { trail, .. } = so_far;
    let Derivation { start, rounds } = trail;
    let Rounds { first, .. } = rounds;
    let RoundFit { round, placed } = fit;
    let rounds = Rounds {
        first,
        second: Some(round),
    };
    let trail = Derivation { start, rounds };
    Chosen { trail, placed }
}

/// What places one block after another. Its tables take their memory once.
#[derive(Drop)]
struct Chooser {
    candidates: Candidates,
    placer: Placer,
    earliest: Earliest,
}

impl Chooser {
    /// What places blocks on a machine with this hub. It fails only where there is no memory.
    fn new(alloc: Global, m: &Machine, hub: u8) -> Result<Self, AllocError> {
        let candidates = Candidates::new(alloc, hub)?;
        let placer = Placer::new(alloc, m)?;
        let earliest = Earliest::new(alloc, m)?;
        Ok(Chooser {
            candidates,
            placer,
            earliest,
        })
    }

    /// The first fit of a block's list after the passes. It fails only where there is no memory.
    fn plain(
        &mut self,
        alloc: Global,
        on: &BuildTarget<'_>,
        b: &BlockList,
    ) -> Result<Chosen, AllocError>
        requires list { is_list on.now.joined.machine.now b.now.items ≡ true }
        ensures { IfOk result (λ r. IsBest on.now.joined.machine.now b.now r) }
    {
        let first = self.candidates.plain(alloc, on, b)?;
        let best = fit_of(alloc, &mut self.placer, on, first)?;
        Ok(best)
    }

    /// The shorter of a placement and that of a block's own list from the last group. It fails only where
    /// there is no memory.
    fn with_last(
        &mut self,
        alloc: Global,
        on: &BuildTarget<'_>,
        b: &BlockList,
        so_far: Chosen,
    ) -> Result<Chosen, AllocError>
        requires list { is_list on.now.joined.machine.now b.now.items ≡ true }
        requires best { IsBest on.now.joined.machine.now b.now so_far }
        ensures { IfOk result (λ r. IsBest on.now.joined.machine.now b.now r) }
    {
        let more = self.candidates.from_last(alloc, on, b);
        let (best, more) = beside(so_far, more)?;
        shortest(alloc, &mut self.placer, on, b, best, more)
    }

    /// The shorter of a placement and that with a second round of its trail by the latest cycles. It fails
    /// only where there is no memory.
    fn with_latest(
        &mut self,
        alloc: Global,
        on: &BuildTarget<'_>,
        b: &BlockList,
        so_far: Chosen,
    ) -> Result<Chosen, AllocError>
        requires list { is_list on.now.joined.machine.now b.now.items ≡ true }
        requires best { IsBest on.now.joined.machine.now b.now so_far }
        ensures { IfOk result (λ r. IsBest on.now.joined.machine.now b.now r) }
    {
        let rounder = &mut self.candidates.rounder;
        let fit = second_round(
            alloc,
            &mut self.placer,
            rounder,
            on,
            so_far.trail.rounds.first.last(),
        );
        let (best, fit) = beside(so_far, fit)?;
        match fit {
            Some(fit) => Ok(shorter_with(best, fit)),
            None => Ok(best),
        }
    }

    /// The shortest first fit of a block's candidates but that by the latest cycles. They are made in turn,
    /// until one takes no more than the least cycles. It fails only where there is no memory.
    fn place_first(
        &mut self,
        alloc: Global,
        on: &BuildTarget<'_>,
        b: &BlockList,
        least: u32,
    ) -> Result<Chosen, AllocError>
        requires list { is_list on.now.joined.machine.now b.now.items ≡ true }
        ensures { IfOk result (λ r. IsBest on.now.joined.machine.now b.now r) }
    {
        let first = self.plain(alloc, on, b)?;
        if first.placed.length <= least {
            return Ok(first);
        }
        let others = self.candidates.others(alloc, on, b);
        let (first, others) = beside(first, others)?;
        let is_served = are_served(others.as_slice());
        let best = shortest(alloc, &mut self.placer, on, b, first, others)?;
        if is_served || best.placed.length <= least {
            return Ok(best);
        }
        self.with_last(alloc, on, b, best)
    }

    /// The shortest first fit of a block's candidates, of which there is one more for a short list of an
    /// innermost loop. It fails only where there is no memory.
    fn place(
        &mut self,
        alloc: Global,
        on: &BuildTarget<'_>,
        b: &BlockList,
        is_inner: bool,
    ) -> Result<Chosen, AllocError>
        requires list { is_list on.now.joined.machine.now b.now.items ≡ true }
        ensures { IfOk result (λ r. IsBest on.now.joined.machine.now b.now r) }
    {
        let least = self.earliest.cycles(on.joined.machine, b.items.as_slice());
        let best = self.place_first(alloc, on, b, least)?;
        if is_inner && promises_gain(b.items.len(), best.placed.length, least) {
            self.with_latest(alloc, on, b, best)
        } else {
            Ok(best)
        }
    }
}

/// The trails and placements of blocks.
#[derive(Drop)]
pub struct Placements {
    pub trails: Vec<Derivation>,
    pub placed: Vec<Placed>,
}

/// The same for each block of a program, by what is lent.
fn place_each(
    alloc: Global,
    chooser: &mut Chooser,
    blocks: &[BlockList],
    on: &BuildTarget<'_>,
) -> Result<Placements, AllocError>
    requires lists { list_all (λ b. is_list on.now.joined.machine.now b.items) blocks.now ≡ true }
    ensures { IfOk result (λ r. ArePlacements on.now.joined.machine.now blocks.now r) }
{
    let inner = in_inner_loops(alloc, blocks)?;
    let mut trails = Vec::new(alloc);
    let mut all = Vec::new(alloc);
    for b in blocks {
        let is_inner = is_marked(inner.as_slice(), all.len());
        let Chosen { trail, placed } = chooser.place(alloc, on, b, is_inner)?;
        trails.push(trail)?;
        all.push(placed)?;
    }
    Ok(Placements {
        trails,
        placed: all,
    })
}

/// For each of these blocks the shortest first fit of its candidates, by a table of its own.
fn placements_of(
    alloc: Global,
    on: &BuildTarget<'_>,
    blocks: &[BlockList],
) -> Result<Placements, AllocError>
    requires lists { list_all (λ b. is_list on.now.joined.machine.now b.items) blocks.now ≡ true }
    ensures { IfOk result (λ r. ArePlacements on.now.joined.machine.now blocks.now r) }
{
    let mut chooser = Chooser::new(alloc, on.joined.machine, on.choice.hub)?;
    place_each(alloc, &mut chooser, blocks, on)
}

/// For each of these blocks the shortest first fit of its candidates, for what is chosen on a
/// machine. The only error is out of memory.
pub fn plan_lists(
    alloc: Global,
    on: &BuildTarget<'_>,
    selected: Vec<BlockList>,
) -> Result<Planned, AllocError>
    requires lists { let m = on.now.joined.machine.now in
        list_all (λ b. is_list m b.items) selected.items ≡ true }
    ensures { IfOk result (λ r. ArePlanned on.now.joined.machine.now selected.items r) }
{
    let Placements { trails, placed } = placements_of(alloc, on, selected.as_slice())?;
    Ok(Planned {
        selected,
        trails,
        placed,
    })
}
