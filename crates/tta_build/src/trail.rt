//! How the list that is placed for a block came of the selected one.

ghost use Rattle.std.specs.Prelude.{◌≡◌, IfOk};
ghost use Rattle.tta_build.specs.Derivation.{last_of, rounds_last};

use std::alloc::{AllocError, Global};
use tta_list::Items;
use tta_moves::BlockList;
use tta_optim::Passed;

/// By what an order of a list's items goes.
#[derive(Clone, Copy, Debug, PartialEq, Eq)]
pub enum Order {
    /// By items along the longest path.
    Items,
    /// By the latest cycles in which the items of a placement could stand.
    Latest,
    /// By groups, cycle by cycle.
    Groups,
}

/// A list in another order, and by what that goes.
#[derive(Drop)]
pub struct Ordered {
    pub by: Order,
    pub list: BlockList,
}

/// What a list becomes in another order, if it is put into one, then with its operations on other
/// units, if any is, and by the passes after that.
#[derive(Drop)]
pub struct Round {
    pub ordered: Option<Ordered>,
    pub bound: Option<BlockList>,
    pub passed: Passed,
}

impl Round {
    /// The list after the passes of the round.
    pub fn last(&self) -> &BlockList
        ensures { result.now ≡ self.now.passed.lively }
    {
        self.passed.last()
    }
}

/// One round or two.
#[derive(Drop)]
pub struct Rounds {
    pub first: Round,
    pub second: Option<Round>,
}

impl Rounds {
    /// The list after the last round.
    pub fn last(&self) -> &BlockList
        ensures { result.now ≡ rounds_last self.now }
    {
        match &self.second {
            Some(round) => round.last(),
            None => self.first.last(),
        }
    }
}

/// What becomes of the selected list before the rounds: with its loads served, if they are, and then
/// with its operations on other units, if any is.
#[derive(Drop)]
pub struct Start {
    pub served: Option<BlockList>,
    pub bound: Option<BlockList>,
}

/// How the list of a block came of the selected one.
#[derive(Drop)]
pub struct Derivation {
    pub start: Start,
    pub rounds: Rounds,
}

impl Derivation {
    /// The list that is placed.
    pub fn last(&self) -> &BlockList
        ensures { result.now ≡ last_of self.now }
    {
        self.rounds.last()
    }
}

/// Whether trails come of a list in which loads are served.
pub fn are_served(trails: &[Derivation]) -> bool {
    match trails.get(0) {
        None => false,
        Some(trail) => trail.start.served.is_some(),
    }
}

/// A copy of a list. It fails only where there is no memory.
pub fn copied(alloc: Global, b: &BlockList) -> Result<BlockList, AllocError>
    ensures { IfOk result (λ r. r ≡ b.now) }
{
    let items = Vec::from_slice(alloc, b.items.as_slice())?;
    let live = Vec::from_slice(alloc, b.live_out.as_slice())?;
    Ok(BlockList {
        items: Items::of(items),
        live_out: Items::of(live),
    })
}
