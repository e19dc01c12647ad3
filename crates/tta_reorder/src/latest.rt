//! How late the items of a placed list could stand, if it took no more cycles.

use crate::bus_slots::BusSlots;
use crate::edges::number_of;
use crate::graph::{Graph, signed};
use crate::marks::StampedMap;
use crate::uses::Uses;
use std::alloc::{AllocError, Global};
use tta_moves::PlacedItem;

/// One more than the greatest number of an item.
const NUMBERS: u64 = 0x1_0000_0000;

/// The cycles of placed items with their numbers, in rising order: each cycle times `NUMBERS`, and the
/// number added. The only error is out of memory.
fn by_cycles(alloc: Global, placed: &[PlacedItem]) -> Result<Vec<u64>, AllocError> {
    let mut keys = Vec::with_capacity(alloc, placed.len())?;
    for (n, x) in placed.iter().enumerate() {
        let cycle = u64::from(x.cycle).saturating_mul(NUMBERS);
        keys.push(cycle.saturating_add(u64::from(number_of(n))))?;
    }
    keys.sort_unstable();
    Ok(keys)
}

/// The cycles of a list, counted from its end.
#[derive(Drop)]
struct Backward<'c> {
    slots: BusSlots,
    /// From which cycle on each unit is free.
    free: &'c mut StampedMap,
}

impl Backward<'_> {
    /// From which cycle on an item's unit is free, if it starts one.
    fn since(&self, u: Uses) -> u32 {
        let Some(unit) = u.trigger else {
            return 0;
        };
        match self.free.get(unit) {
            None => 0,
            Some(cycle) => cycle,
        }
    }

    /// Puts an item into the first cycle from one on in which its unit is free and a bus is, and gives
    /// that. The only error is out of memory.
    fn place(&mut self, u: Uses, least: u32) -> Result<u32, AllocError> {
        let cycle = self.slots.with_bus(least.max(self.since(u)));
        self.slots.book(cycle)?;
        if let Some(unit) = u.trigger {
            self.free.set(unit, cycle.saturating_add(1));
        }
        Ok(cycle)
    }
}

/// A path as a number without a sign, 0 for one below that.
fn unsigned(path: i32) -> u32 {
    match u32::try_from(path) {
        Ok(k) => k,
        Err(_) => 0,
    }
}

/// How many cycles it takes at least from each item of a placed list to the end, where they are placed
/// from the end on, those first that stand last. The only error is out of memory.
pub fn latest_paths(
    alloc: Global,
    free: &mut StampedMap,
    graph: &Graph,
    all: &[Uses],
    placed: &[PlacedItem],
    buses: u32,
) -> Result<Vec<i32>, AllocError> {
    free.begin();
    let slots = BusSlots::new(alloc, all.len(), buses)?;
    let mut backward = Backward { slots, free };
    let mut paths = vec![in alloc; 0; all.len()]?;
    let keys = by_cycles(alloc, placed)?;
    for k in (0..keys.len()).rev() {
        let n = (keys[k] % NUMBERS) as usize;
        if let Some(u) = all.get(n) {
            let least = graph.path(paths.as_slice(), n, i32::from(u.takes));
            let path = backward.place(*u, unsigned(least))?;
            if n < paths.len() {
                paths[n] = signed(path);
            }
        }
    }
    Ok(paths)
}
