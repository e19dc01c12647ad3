//! The lists that may be placed for a block, each with how it came of the selected one.

ghost use Rattle.std.specs.Prelude.{◌≡◌, true, IfOk, OnOk, IfSome};
ghost use Rattle.tta_moves.specs.declared.items.BlockList.{BlockList};
ghost use Rattle.tta_moves.specs.Slots.{is_list};
ghost use Rattle.tta_optim.specs.Kept.{IsEquivalent};
ghost use Rattle.tta_compiler_laws.specs.Compiler.{optimised};
ghost use Rattle.tta_build.specs.Derivation.{IsTrail, AreTrailsOf, last_of};
ghost use Rattle.tta_build.specs.Placing.{AreChoices, IsBound};

use crate::keeping::beside;
use crate::pushing::{push_bound, push_served, push_some};
use crate::rounds::Rounder;
use crate::trail::{Derivation, Rounds, Start};
use crate::ways::{IN_TURN, LAST_FIRST, PLAINLY};
use std::alloc::{AllocError, Global};
use tta_bind::{Dealing, bind};
use tta_connect::BuildTarget;
use tta_loadelim::Reloads;
use tta_moves::BlockList;

/// Up to so many items an order by items is tried beside one by groups: it seldom gives the shorter
/// list, and takes its time.
const FEW_ITEMS: usize = 64;

/// In longer lists loads that are served leave an order by groups little to gain, and one by items is
/// worth its time only where they are.
const MANY_ITEMS: usize = 512;

/// The rounds of a list that most often are the shortest, and those by items where it is short.
#[derive(Drop)]
pub struct Choices {
    pub best: Rounds,
    pub by_items: Option<Rounds>,
}

/// A list with its operations on other units, and its rounds.
#[derive(Drop)]
pub struct Bound {
    pub list: BlockList,
    pub choices: Choices,
}

/// What makes the candidates of one block after another. Its tables take their memory once.
#[derive(Drop)]
pub struct Candidates {
    pub rounder: Rounder,
    reloads: Reloads,
}

impl Candidates {
    /// What makes candidates on a machine with this hub. It fails only where there is no memory.
    pub fn new(alloc: Global, hub: u8) -> Result<Self, AllocError> {
        let rounder = Rounder::new(alloc, hub)?;
        let reloads = Reloads::new(alloc)?;
        Ok(Candidates { rounder, reloads })
    }

    /// The trail of a block by the passes alone. It fails only where there is no memory.
    pub fn plain(
        &mut self,
        alloc: Global,
        on: &BuildTarget<'_>,
        b: &BlockList,
    ) -> Result<Derivation, AllocError>
        requires list { is_list on.now.joined.machine.now b.now.items ≡ true }
        ensures trail { IfOk result (λ t. IsTrail on.now.joined.machine.now b.now t) }
        ensures last { IfOk result (λ t. last_of t ≡ optimised on.now.joined.machine.now b.now) }
    {
        let first = self.rounder.plain(alloc, on, b)?;
        Ok(Derivation {
            start: Start {
                served: None,
                bound: None,
            },
            rounds: Rounds {
                first,
                second: None,
            },
        })
    }

    /// Adds what a block's own list becomes by items, where it is short or its groups stand in their
    /// order, and by groups. It fails only where there is no memory.
    fn add_own(
        &mut self,
        alloc: Global,
        on: &BuildTarget<'_>,
        lists: &mut Vec<Derivation>,
        b: &BlockList,
    ) -> Result<(), AllocError>
        requires list { is_list on.now.joined.machine.now b.now.items ≡ true }
        ensures { OnOk result (AreTrailsOf on.now.joined.machine.now b.now lists.old.items
            → AreTrailsOf on.now.joined.machine.now b.now lists.new.items) }
    {
        let by_groups = self.rounder.of_groups(alloc, on, b, usize::MAX, PLAINLY)?;
        let most = if by_groups.is_some() {
            FEW_ITEMS
        } else {
            MANY_ITEMS
        };
        let by_items = self.rounder.of_items(alloc, on, b, most);
        let (by_groups, by_items) = beside(by_groups, by_items)?;
        let pushed = push_some(lists, by_items);
        let (by_groups, _) = beside(by_groups, pushed)?;
        push_some(lists, by_groups)?;
        Ok(())
    }

    /// Adds what a list in which loads are served becomes. It fails only where there is no memory.
    fn add_served(
        &mut self,
        alloc: Global,
        on: &BuildTarget<'_>,
        lists: &mut Vec<Derivation>,
        served: &BlockList,
    ) -> Result<(), AllocError>
        requires list { is_list on.now.joined.machine.now served.now.items ≡ true }
        ensures { OnOk result ((b : BlockList) → IsEquivalent on.now.joined.machine.now b served.now
            → AreTrailsOf on.now.joined.machine.now b lists.old.items
            → AreTrailsOf on.now.joined.machine.now b lists.new.items) }
    {
        let rounds = self.rounder.best(alloc, on, served, MANY_ITEMS, PLAINLY)?;
        push_served(alloc, lists, served, Some(rounds))?;
        let more = self
            .rounder
            .of_way(alloc, on, served, MANY_ITEMS, LAST_FIRST)?;
        push_served(alloc, lists, served, more)?;
        Ok(())
    }

    /// The rounds of a list with its operations on other units. It fails only where there is no memory.
    fn choices(
        &mut self,
        alloc: Global,
        on: &BuildTarget<'_>,
        list: &BlockList,
    ) -> Result<Choices, AllocError>
        requires list { is_list on.now.joined.machine.now list.now.items ≡ true }
        ensures { IfOk result (λ r. AreChoices on.now.joined.machine.now list.now r) }
    {
        let best = self.rounder.best(alloc, on, list, usize::MAX, IN_TURN)?;
        let by_items = self.rounder.of_items(alloc, on, list, FEW_ITEMS);
        let (best, by_items) = beside(best, by_items)?;
        Ok(Choices { best, by_items })
    }

    /// A list with its operations on other units, if any then stands elsewhere, with its rounds. It
    /// fails only where there is no memory.
    fn bound(
        &mut self,
        alloc: Global,
        on: &BuildTarget<'_>,
        list: &BlockList,
    ) -> Result<Option<Bound>, AllocError>
        requires list { is_list on.now.joined.machine.now list.now.items ≡ true }
        ensures { IfOk result (λ o. IfSome o (λ r. IsBound on.now.joined.machine.now list.now r)) }
    {
        match bind(alloc, list, on, Dealing::InTurn)? {
            Some(other) => {
                let choices = self.choices(alloc, on, &other);
                let (list, choices) = beside(other, choices)?;
                Ok(Some(Bound { list, choices }))
            }
            None => Ok(None),
        }
    }

    /// Adds what a list in which loads are served becomes, and that list with its operations on other
    /// units. It fails only where there is no memory.
    fn of_served(
        &mut self,
        alloc: Global,
        on: &BuildTarget<'_>,
        lists: &mut Vec<Derivation>,
        served: BlockList,
    ) -> Result<(), AllocError>
        requires list { is_list on.now.joined.machine.now served.items ≡ true }
        ensures { OnOk result ((b : BlockList) → IsEquivalent on.now.joined.machine.now b served
            → AreTrailsOf on.now.joined.machine.now b lists.old.items
            → AreTrailsOf on.now.joined.machine.now b lists.new.items) }
    {
        let added = self.add_served(alloc, on, lists, &served);
        let (list, _) = beside(served, added)?;
        let bound = self.bound(alloc, on, &list);
        let (other, bound) = beside(list, bound)?;
        push_bound(alloc, lists, Some(other), bound)?;
        Ok(())
    }

    /// Adds what a block's own list becomes with its operations on other units, and where it is short by
    /// groups as it stands: of a longer one both give next to nothing more. It fails only without memory.
    fn add_bound(
        &mut self,
        alloc: Global,
        on: &BuildTarget<'_>,
        lists: &mut Vec<Derivation>,
        b: &BlockList,
        bound: Bound,
    ) -> Result<(), AllocError>
        requires list { is_list on.now.joined.machine.now b.now.items ≡ true }
        ensures { OnOk result (IsBound on.now.joined.machine.now b.now bound
            → AreTrailsOf on.now.joined.machine.now b.now lists.old.items
            → AreTrailsOf on.now.joined.machine.now b.now lists.new.items) }
    {
        push_bound(alloc, lists, None, Some(bound))?;
        let own = self.rounder.of_groups(alloc, on, b, FEW_ITEMS, PLAINLY)?;
        push_some(lists, own)?;
        Ok(())
    }

    /// Adds what a block's own list becomes with its operations on other units, or as it stands where none
    /// can stand on another. It fails only without memory.
    fn add_first(
        &mut self,
        alloc: Global,
        on: &BuildTarget<'_>,
        lists: &mut Vec<Derivation>,
        b: &BlockList,
        bound: Option<Bound>,
    ) -> Result<(), AllocError>
        requires list { is_list on.now.joined.machine.now b.now.items ≡ true }
        ensures { OnOk result (IfSome bound (λ x. IsBound on.now.joined.machine.now b.now x)
            → AreTrailsOf on.now.joined.machine.now b.now lists.old.items
            → AreTrailsOf on.now.joined.machine.now b.now lists.new.items) }
    {
        match bound {
            Some(bound) => self.add_bound(alloc, on, lists, b, bound),
            None => self.add_own(alloc, on, lists, b),
        }
    }

    /// Adds what a block's own list becomes in these ways. It fails only where there is no memory.
    fn of_own(
        &mut self,
        alloc: Global,
        on: &BuildTarget<'_>,
        lists: &mut Vec<Derivation>,
        b: &BlockList,
    ) -> Result<(), AllocError>
        requires list { is_list on.now.joined.machine.now b.now.items ≡ true }
        ensures { OnOk result (AreTrailsOf on.now.joined.machine.now b.now lists.old.items
            → AreTrailsOf on.now.joined.machine.now b.now lists.new.items) }
    {
        let bound = self.bound(alloc, on, b)?;
        self.add_first(alloc, on, lists, b, bound)?;
        Ok(())
    }

    /// What a block's own list becomes in the order from the last group. It fails only where there is no
    /// memory.
    pub fn from_last(
        &mut self,
        alloc: Global,
        on: &BuildTarget<'_>,
        b: &BlockList,
    ) -> Result<Vec<Derivation>, AllocError>
        requires list { is_list on.now.joined.machine.now b.now.items ≡ true }
        ensures { IfOk result (λ ts. AreTrailsOf on.now.joined.machine.now b.now ts.items) }
    {
        let more = self.rounder.of_way(alloc, on, b, usize::MAX, LAST_FIRST)?;
        let mut lists = Vec::new(alloc);
        push_some(&mut lists, more)?;
        Ok(lists)
    }

    /// The candidates of a block beside its list after the passes, but for its own list from the last
    /// group. Where loads can be served from what is at hand, they come of the list in which they are, for
    /// that is seldom longer; else of its own. Where units offer the same operations, there are more, in
    /// which they share the work. It fails only where there is no memory.
    pub fn others(
        &mut self,
        alloc: Global,
        on: &BuildTarget<'_>,
        b: &BlockList,
    ) -> Result<Vec<Derivation>, AllocError>
        requires list { is_list on.now.joined.machine.now b.now.items ≡ true }
        ensures { IfOk result (λ ts. AreTrailsOf on.now.joined.machine.now b.now ts.items) }
    {
        let mut lists = Vec::new(alloc);
        match self.reloads.reload(alloc, on, b)? {
            Some(served) => {
                self.of_served(alloc, on, &mut lists, served)?;
                Ok(lists)
            }
            None => {
                self.of_own(alloc, on, &mut lists, b)?;
                Ok(lists)
            }
        }
    }
}
