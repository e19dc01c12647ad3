//! Rounds: a list in another order, its operations on other units, and the passes after that.

ghost use Rattle.std.specs.Prelude.{◌≡◌, true, IfOk, IfSome};
ghost use Rattle.tta_moves.specs.declared.items.BlockList.{BlockList};
ghost use Rattle.tta_moves.specs.Slots.{is_list};
ghost use Rattle.tta_optim.specs.Kept.{IsEquivalent};
ghost use Rattle.tta_compiler_laws.specs.Compiler.{optimised};
ghost use Rattle.tta_build.specs.Derivation.{IsRound, AreRounds};

use crate::keeping::beside;
use crate::trail::{Order, Ordered, Round, Rounds};
use crate::ways::Way;
use std::alloc::{AllocError, Global};
use tta_bind::{Dealing, bind};
use tta_connect::BuildTarget;
use tta_moves::{BlockList, Placed};
use tta_optim::Passes;
use tta_reorder::{Orders, Rule, Ties};

/// A list with its operations on other units, if they are dealt out and any then stands elsewhere. It
/// fails only where there is no memory.
pub fn bound_by(
    alloc: Global,
    on: &BuildTarget<'_>,
    list: &BlockList,
    dealing: Option<Dealing>,
) -> Result<Option<BlockList>, AllocError>
    ensures { IfOk result (λ o. IfSome o (λ r. IsEquivalent on.now.joined.machine.now list.now r)) }
{
    match dealing {
        Some(by) => {
            let bound = bind(alloc, list, on, by)?;
            Ok(bound)
        }
        None => Ok(None),
    }
}

/// What makes rounds of one list after another. Its tables take their memory once.
#[derive(Drop)]
pub struct Rounder {
    passes: Passes,
    orders: Orders,
}

impl Rounder {
    /// What makes rounds on a machine with this hub. It fails only where there is no memory.
    pub fn new(alloc: Global, hub: u8) -> Result<Self, AllocError> {
        let passes = Passes::new(alloc)?;
        let orders = Orders::new(alloc, hub)?;
        Ok(Rounder { passes, orders })
    }

    /// The round of a list by the passes alone. It fails only where there is no memory.
    pub fn plain(
        &mut self,
        alloc: Global,
        on: &BuildTarget<'_>,
        list: &BlockList,
    ) -> Result<Round, AllocError>
        requires list { is_list on.now.joined.machine.now list.now.items ≡ true }
        ensures round { IfOk result (λ r. IsRound on.now.joined.machine.now list.now r) }
        ensures last { let m = on.now.joined.machine.now in
            IfOk result (λ r. r.passed.lively ≡ optimised m list.now) }
    {
        let passed = self.passes.passed(alloc, list, &on.joined)?;
        Ok(Round {
            ordered: None,
            bound: None,
            passed,
        })
    }

    /// The round of a list in this order. It fails only where there is no memory.
    fn in_order(
        &mut self,
        alloc: Global,
        on: &BuildTarget<'_>,
        list: BlockList,
        by: Order,
    ) -> Result<Round, AllocError>
        requires list { is_list on.now.joined.machine.now list.items ≡ true }
        ensures { let M = on.now.joined.machine.now in
            IfOk result (λ r. (b : BlockList) → IsEquivalent M b list → IsRound M b r) }
    {
        let passed = self.passes.passed(alloc, &list, &on.joined)?;
        Ok(Round {
            ordered: Some(Ordered { by, list }),
            bound: None,
            passed,
        })
    }

    /// The round of a list in an order by groups, with its operations on other units. It fails only
    /// where there is no memory.
    fn on_units(
        &mut self,
        alloc: Global,
        on: &BuildTarget<'_>,
        list: BlockList,
        bound: BlockList,
    ) -> Result<Round, AllocError>
        requires stands { IsEquivalent on.now.joined.machine.now list bound }
        requires list { is_list on.now.joined.machine.now bound.items ≡ true }
        ensures { let M = on.now.joined.machine.now in
            IfOk result (λ r. (b : BlockList) → IsEquivalent M b list → IsRound M b r) }
    {
        let passed = self.passes.passed(alloc, &bound, &on.joined)?;
        Ok(Round {
            ordered: Some(Ordered {
                by: Order::Groups,
                list,
            }),
            bound: Some(bound),
            passed,
        })
    }

    /// The round of a list as it stands, with its operations on other units. It fails only where there is
    /// no memory.
    pub fn as_bound(
        &mut self,
        alloc: Global,
        on: &BuildTarget<'_>,
        bound: BlockList,
    ) -> Result<Round, AllocError>
        requires list { is_list on.now.joined.machine.now bound.items ≡ true }
        ensures { let M = on.now.joined.machine.now in
            IfOk result (λ r. (b : BlockList) → IsEquivalent M b bound → IsRound M b r) }
    {
        let passed = self.passes.passed(alloc, &bound, &on.joined)?;
        Ok(Round {
            ordered: None,
            bound: Some(bound),
            passed,
        })
    }

    /// The round of a list in an order by groups, perhaps with its operations on other units. It fails
    /// only where there is no memory.
    fn grouped(
        &mut self,
        alloc: Global,
        on: &BuildTarget<'_>,
        list: BlockList,
        dealing: Option<Dealing>,
    ) -> Result<Round, AllocError>
        requires list { is_list on.now.joined.machine.now list.items ≡ true }
        ensures { let M = on.now.joined.machine.now in
            IfOk result (λ r. (b : BlockList) → IsEquivalent M b list → IsRound M b r) }
    {
        let bound = bound_by(alloc, on, &list, dealing);
        let (list, bound) = beside(list, bound)?;
        match bound {
            Some(bound) => self.on_units(alloc, on, list, bound),
            None => self.in_order(alloc, on, list, Order::Groups),
        }
    }

    /// The round by groups; none where a list's groups stand in their order. It fails only where there
    /// is no memory.
    pub fn by_groups(
        &mut self,
        alloc: Global,
        on: &BuildTarget<'_>,
        list: &BlockList,
        way: Way,
    ) -> Result<Option<Round>, AllocError>
        requires list { is_list on.now.joined.machine.now list.now.items ≡ true }
        ensures { IfOk result (λ o. IfSome o (λ r. IsRound on.now.joined.machine.now list.now r)) }
    {
        match self.orders.order(alloc, list, &on.joined, way.rule)? {
            Some(other) => {
                let round = self.grouped(alloc, on, other, way.dealing)?;
                Ok(Some(round))
            }
            None => Ok(None),
        }
    }

    /// The round by items; none where a list's items stand in their order. It fails only where there
    /// is no memory.
    fn by_items(
        &mut self,
        alloc: Global,
        on: &BuildTarget<'_>,
        list: &BlockList,
        ties: Ties,
    ) -> Result<Option<Round>, AllocError>
        requires list { is_list on.now.joined.machine.now list.now.items ≡ true }
        ensures { IfOk result (λ o. IfSome o (λ r. IsRound on.now.joined.machine.now list.now r)) }
    {
        match self
            .orders
            .order(alloc, list, &on.joined, Rule::Items(ties))?
        {
            Some(other) => {
                let round = self.in_order(alloc, on, other, Order::Items)?;
                Ok(Some(round))
            }
            None => Ok(None),
        }
    }

    /// The round by the latest cycles of a placement of a list; none where that is the list's own order.
    /// It fails only where there is no memory.
    pub fn by_latest(
        &mut self,
        alloc: Global,
        on: &BuildTarget<'_>,
        list: &BlockList,
        placed: &Placed,
    ) -> Result<Option<Round>, AllocError>
        requires list { is_list on.now.joined.machine.now list.now.items ≡ true }
        ensures { IfOk result (λ o. IfSome o (λ r. IsRound on.now.joined.machine.now list.now r)) }
    {
        match self.orders.by_latest(alloc, list, &on.joined, placed)? {
            Some(other) => {
                let round = self.in_order(alloc, on, other, Order::Latest)?;
                Ok(Some(round))
            }
            None => Ok(None),
        }
    }

    /// A round, and after it one by items, unless its items stand in their order. It fails only where
    /// there is no memory.
    pub fn with_items(
        &mut self,
        alloc: Global,
        on: &BuildTarget<'_>,
        list: &BlockList,
        first: Round,
        ties: Ties,
    ) -> Result<Rounds, AllocError>
        requires list { is_list on.now.joined.machine.now list.now.items ≡ true }
        requires first { IsRound on.now.joined.machine.now list.now first }
        ensures { IfOk result (λ r. AreRounds on.now.joined.machine.now list.now r) }
    {
        let second = self.by_items(alloc, on, first.last(), ties);
        let (first, second) = beside(first, second)?;
        Ok(Rounds { first, second })
    }
}
