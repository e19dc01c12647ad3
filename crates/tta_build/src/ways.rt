//! The ways in which a block's list is put into other orders, and its rounds in each.

ghost use Rattle.std.specs.Prelude.{◌≡◌, true, IfOk, IfSome};
ghost use Rattle.tta_moves.specs.declared.items.BlockList.{BlockList};
ghost use Rattle.tta_moves.specs.Slots.{is_list};
ghost use Rattle.tta_build.specs.Derivation.{IsRound, AreRounds};

use crate::rounds::{Rounder, bound_by};
use crate::trail::{Round, Rounds};
use std::alloc::{AllocError, Global};
use tta_bind::Dealing;
use tta_connect::BuildTarget;
use tta_moves::BlockList;
use tta_reorder::{Rule, Ties};

/// A way to put a list into another order: by groups, by which rule; how its operations are dealt out
/// over units after that, if they are; and to which of those that are as good the order by items goes
/// that comes then.
#[derive(Clone, Copy)]
pub struct Way {
    pub rule: Rule,
    pub dealing: Option<Dealing>,
    pub ties: Ties,
}

/// Cycle by cycle, which most often is the shortest.
pub const PLAINLY: Way = Way {
    rule: Rule::Cycles,
    dealing: None,
    ties: Ties::First,
};

/// The same with operations on other units.
pub const IN_TURN: Way = Way {
    rule: Rule::Cycles,
    dealing: Some(Dealing::InTurn),
    ties: Ties::First,
};

/// By groups from the last to the first, as far as they can go, without a look at cycles. It shares
/// nothing with the others, so it finds what they do not.
pub const LAST_FIRST: Way = Way {
    rule: Rule::Groups,
    dealing: Some(Dealing::Apart),
    ties: Ties::Last,
};

/// Up to so many items no order was seen to be shorter than the list's own.
const FEWEST_ITEMS: usize = 3;

/// Whether a list has so many items that an order is tried, and at most so many.
fn is_worth(list: &BlockList, most: usize) -> bool {
    let count = list.items.len();
    count > FEWEST_ITEMS && count <= most
}

impl Rounder {
    /// The round of a list as it stands, with its operations on other units, if they are dealt out and any
    /// then stands elsewhere. It fails only where there is no memory.
    fn dealt(
        &mut self,
        alloc: Global,
        on: &BuildTarget<'_>,
        list: &BlockList,
        dealing: Option<Dealing>,
    ) -> Result<Round, AllocError>
        requires list { is_list on.now.joined.machine.now list.now.items ≡ true }
        ensures { IfOk result (λ r. IsRound on.now.joined.machine.now list.now r) }
    {
        match bound_by(alloc, on, list, dealing)? {
            Some(bound) => {
                let round = self.as_bound(alloc, on, bound)?;
                Ok(round)
            }
            None => self.plain(alloc, on, list),
        }
    }

    /// The first round of a list in a way. Where its groups stand in their order, its operations are
    /// dealt out nevertheless. It fails only where there is no memory.
    fn first_of(
        &mut self,
        alloc: Global,
        on: &BuildTarget<'_>,
        list: &BlockList,
        way: Way,
    ) -> Result<Round, AllocError>
        requires list { is_list on.now.joined.machine.now list.now.items ≡ true }
        ensures { IfOk result (λ r. IsRound on.now.joined.machine.now list.now r) }
    {
        match self.by_groups(alloc, on, list, way)? {
            Some(round) => Ok(round),
            None => self.dealt(alloc, on, list, way.dealing),
        }
    }

    /// The rounds of a list of at most so many items in a way; none of a longer one. It fails only where
    /// there is no memory.
    pub fn of_way(
        &mut self,
        alloc: Global,
        on: &BuildTarget<'_>,
        list: &BlockList,
        most: usize,
        way: Way,
    ) -> Result<Option<Rounds>, AllocError>
        requires list { is_list on.now.joined.machine.now list.now.items ≡ true }
        ensures { let m = on.now.joined.machine.now in
            IfOk result (λ o. IfSome o (λ r. AreRounds m list.now r)) }
    {
        if !is_worth(list, most) {
            return Ok(None);
        }
        let first = self.first_of(alloc, on, list, way)?;
        let rounds = self.with_items(alloc, on, list, first, way.ties)?;
        Ok(Some(rounds))
    }

    /// The rounds of a list of at most so many items by groups, and then by items; none of a longer
    /// one, or where its groups stand in their order. It fails only where there is no memory.
    pub fn of_groups(
        &mut self,
        alloc: Global,
        on: &BuildTarget<'_>,
        list: &BlockList,
        most: usize,
        way: Way,
    ) -> Result<Option<Rounds>, AllocError>
        requires list { is_list on.now.joined.machine.now list.now.items ≡ true }
        ensures { let m = on.now.joined.machine.now in
            IfOk result (λ o. IfSome o (λ r. AreRounds m list.now r)) }
    {
        if !is_worth(list, most) {
            return Ok(None);
        }
        match self.by_groups(alloc, on, list, way)? {
            Some(first) => {
                let rounds = self.with_items(alloc, on, list, first, way.ties)?;
                Ok(Some(rounds))
            }
            None => Ok(None),
        }
    }

    /// The rounds of a list by the passes and then by items, where it has at most so many items after
    /// the passes; none of a longer one, or where they stand in their order. It fails only where there
    /// is no memory.
    pub fn of_items(
        &mut self,
        alloc: Global,
        on: &BuildTarget<'_>,
        list: &BlockList,
        most: usize,
    ) -> Result<Option<Rounds>, AllocError>
        requires list { is_list on.now.joined.machine.now list.now.items ≡ true }
        ensures { let m = on.now.joined.machine.now in
            IfOk result (λ o. IfSome o (λ r. AreRounds m list.now r)) }
    {
        // The passes seldom leave out half of a list.
        if list.items.len() > most.saturating_mul(2) {
            return Ok(None);
        }
        let first = self.plain(alloc, on, list)?;
        if !is_worth(first.last(), most) {
            return Ok(None);
        }
        let rounds = self.with_items(alloc, on, list, first, Ties::First)?;
        if rounds.second.is_none() {
            return Ok(None);
        }
        Ok(Some(rounds))
    }

    /// The rounds of a list that most often are the shortest: by groups where it has at most so many
    /// items, else by items, and else by the passes alone. It fails only where there is no memory.
    pub fn best(
        &mut self,
        alloc: Global,
        on: &BuildTarget<'_>,
        list: &BlockList,
        most: usize,
        way: Way,
    ) -> Result<Rounds, AllocError>
        requires list { is_list on.now.joined.machine.now list.now.items ≡ true }
        ensures { IfOk result (λ r. AreRounds on.now.joined.machine.now list.now r) }
    {
        match self.of_groups(alloc, on, list, most, way)? {
            Some(rounds) => Ok(rounds),
            None => {
                let first = self.plain(alloc, on, list)?;
                self.with_items(alloc, on, list, first, way.ties)
            }
        }
    }
}
