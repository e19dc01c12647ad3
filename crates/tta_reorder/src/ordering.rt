//! The list of a block in an order that a rule chooses.

ghost use Rattle.std.specs.Prelude.{◌≡◌, true, IfOk, IfSome};
ghost use Rattle.tta_moves.specs.Slots.{is_list};
ghost use Rattle.tta_optim.specs.Kept.{IsEquivalent};

use crate::agree::{Checker, count_up, settled};
use crate::choice::{Rule, by_latest, chosen};
use crate::marks::StampedMap;
use std::alloc::{AllocError, Global};
use tta_arch::Machine;
use tta_connect::TargetMachine;
use tta_moves::{BlockList, Item, Placed};

/// The items from a number on. The only error is out of memory.
fn items_from(alloc: Global, items: &[Item], front: usize) -> Result<Vec<Item>, AllocError> {
    let mut rest = Vec::with_capacity(alloc, items.len())?;
    for n in front..items.len() {
        rest.push(items[n])?;
    }
    Ok(rest)
}

/// The numbers of the items before a number, and then other numbers, counted from it. The only error
/// is out of memory.
fn numbers_after(alloc: Global, front: usize, rest: &[usize]) -> Result<Vec<usize>, AllocError> {
    let mut numbers = Vec::with_capacity(alloc, front.saturating_add(rest.len()))?;
    for n in 0..front {
        numbers.push(n)?;
    }
    for n in rest {
        numbers.push(front.saturating_add(*n))?;
    }
    Ok(numbers)
}

/// Orders by rules, with the tables that they keep, which serve one list after another.
#[derive(Drop)]
pub struct Orders {
    hub: u8,
    marks: StampedMap,
    checker: Checker,
}

impl Orders {
    /// Orders for a machine with this hub and any number of lists. They know by the hub which
    /// registers are scratch. It fails only where there is no memory.
    pub fn new(alloc: Global, hub: u8) -> Result<Self, AllocError> {
        let marks = StampedMap::new(alloc)?;
        let checker = Checker::new(alloc)?;
        Ok(Orders {
            hub,
            marks,
            checker,
        })
    }

    /// The numbers of a list's items in the order that a rule chooses, where the last item that may
    /// wait and those before it stay where they are. It fails only where there is no memory.
    fn numbers(
        &mut self,
        alloc: Global,
        m: &Machine,
        items: &[Item],
        rule: Rule,
    ) -> Result<Vec<usize>, AllocError> {
        let front = settled(m, items);
        if front == 0 {
            return chosen(alloc, &mut self.marks, m, self.hub, items, rule);
        }
        let rest = items_from(alloc, items, front)?;
        let order = chosen(alloc, &mut self.marks, m, self.hub, rest.as_slice(), rule)?;
        numbers_after(alloc, front, order.as_slice())
    }

    /// The list of a block in the order that a rule chooses; none where that is the list's own, or
    /// is not known to be an order. It fails only where there is no memory.
    pub fn order(
        &mut self,
        alloc: Global,
        b: &BlockList,
        on: &TargetMachine<'_>,
        rule: Rule,
    ) -> Result<Option<BlockList>, AllocError>
        requires list { is_list on.now.machine.now b.now.items ≡ true }
        ensures { IfOk result (λ o. IfSome o (λ r. IsEquivalent on.now.machine.now b.now r)) }
    {
        let numbers = self.numbers(alloc, on.machine, b.items.as_slice(), rule)?;
        self.checked(alloc, b, on, numbers.as_slice())
    }

    /// The list of a block in the order of these numbers; none where that is the list's own, or is not
    /// known to be an order. It fails only where there is no memory.
    fn checked(
        &mut self,
        alloc: Global,
        b: &BlockList,
        on: &TargetMachine<'_>,
        numbers: &[usize],
    ) -> Result<Option<BlockList>, AllocError>
        requires list { is_list on.now.machine.now b.now.items ≡ true }
        ensures { IfOk result (λ o. IfSome o (λ r. IsEquivalent on.now.machine.now b.now r)) }
    {
        if count_up(numbers, numbers.len()) {
            return Ok(None);
        }
        let r = self.checker.in_order(alloc, b, on, numbers)?;
        Ok(r)
    }

    /// The list of a block by the latest cycles of a placement of it; none where that is the list's own
    /// order, or is not known to be one. It fails only where there is no memory.
    pub fn by_latest(
        &mut self,
        alloc: Global,
        b: &BlockList,
        on: &TargetMachine<'_>,
        placed: &Placed,
    ) -> Result<Option<BlockList>, AllocError>
        requires list { is_list on.now.machine.now b.now.items ≡ true }
        ensures { IfOk result (λ o. IfSome o (λ r. IsEquivalent on.now.machine.now b.now r)) }
    {
        let items = b.items.as_slice();
        // Items that may wait stay where they are, so a list that has some is left as it is.
        if settled(on.machine, items) > 0 {
            return Ok(None);
        }
        let places = placed.items.as_slice();
        let numbers = by_latest(alloc, &mut self.marks, on.machine, items, places)?;
        self.checked(alloc, b, on, numbers.as_slice())
    }
}
