//! When groups of items could begin, as far as is guessed while an order is chosen.

use crate::bus_slots::BusSlots;
use crate::graph::at;
use crate::marks::StampedMap;
use crate::uses::Uses;
use std::alloc::{AllocError, Global};

/// How many items of a group are looked at for the first that starts an operation.
const DEEP: usize = 16;

/// The number of the item after the last one of a group.
pub fn end_of(starts: &[u32], group: usize, items: usize) -> usize {
    match starts.get(group.saturating_add(1)) {
        None => items,
        Some(n) => *n as usize,
    }
}

/// A guess of the cycles that the items take: each its first one from which on what it asks for
/// shows, its unit is free and a bus is.
#[derive(Drop)]
pub struct IssueEstimate<'c> {
    all: &'c [Uses],
    starts: &'c [u32],
    /// From which cycle on each channel shows, and each unit is free.
    shown: &'c mut StampedMap,
    slots: BusSlots,
}

impl<'c> IssueEstimate<'c> {
    /// A clock before the list, for a machine with so many buses. It fails only where there is no
    /// memory.
    pub fn new(
        alloc: Global,
        all: &'c [Uses],
        starts: &'c [u32],
        shown: &'c mut StampedMap,
        buses: u32,
    ) -> Result<Self, AllocError> {
        shown.begin();
        let slots = BusSlots::new(alloc, all.len(), buses)?;
        Ok(IssueEstimate {
            all,
            starts,
            shown,
            slots,
        })
    }

    /// From which cycle on a channel shows what was brought to it.
    fn since(&self, channel: Option<u16>) -> u32 {
        let Some(c) = channel else {
            return 0;
        };
        match self.shown.get(c) {
            None => 0,
            Some(cycle) => cycle,
        }
    }

    /// The first cycle in which what an item asks for shows and its unit is free.
    fn least(&self, u: Uses) -> u32 {
        let read = self.since(u.source).max(self.since(u.guard));
        // An operation takes its operand as the cycle's own moves leave it.
        let operand = self.since(u.operand).saturating_sub(1);
        let own = if u.is_guarded {
            self.since(u.written)
        } else {
            0
        };
        read.max(operand).max(own).max(self.since(u.trigger))
    }

    /// The cycle in which a group's first operation could start.
    pub fn start_of(&self, group: usize) -> u32 {
        let first = at(self.starts, group) as usize;
        let end = end_of(self.starts, group, self.all.len());
        let mut cycle = 0u32;
        for n in first..end.min(first.saturating_add(DEEP)) {
            let Some(u) = self.all.get(n) else {
                break;
            };
            cycle = cycle.max(self.least(*u));
            if u.trigger.is_some() {
                break;
            }
        }
        self.slots.with_bus(cycle)
    }

    /// A channel shows what was brought to it from a cycle on.
    fn show(&mut self, channel: Option<u16>, cycle: u32) {
        if let Some(c) = channel {
            self.shown.set(c, cycle);
        }
    }

    /// Puts an item into the first cycle that suits it. The only error is out of memory.
    fn place(&mut self, u: Uses) -> Result<(), AllocError> {
        let least = self.least(u);
        // A copy of a result is mostly left out later.
        let cycle = if u.is_copy {
            least
        } else {
            self.slots.with_bus(least)
        };
        self.slots.book(cycle)?;
        self.show(u.written, cycle.saturating_add(u32::from(u.shows)));
        self.show(u.trigger, cycle.saturating_add(1));
        Ok(())
    }

    /// Places a group's items. It fails only where there is no memory.
    pub fn begin(&mut self, group: usize) -> Result<(), AllocError> {
        let end = end_of(self.starts, group, self.all.len());
        for n in at(self.starts, group) as usize..end {
            if let Some(u) = self.all.get(n) {
                self.place(*u)?;
            }
        }
        Ok(())
    }
}
