//! How many moves the cycles of a list have, while an order is chosen.

use crate::graph::at;
use std::alloc::{AllocError, Global};

/// How many cycles are looked at for one that has a bus.
const FAR: u32 = 64;

/// The cycles that have a bus for one more move.
#[derive(Drop)]
pub struct BusSlots {
    /// How many moves each cycle has.
    moves: Vec<u32>,
    buses: u32,
    /// Each cycle before this one has a move on each bus.
    full: u32,
}

impl BusSlots {
    /// Cycles without moves, for so many items on so many buses. It fails only where there is no
    /// memory.
    pub fn new(alloc: Global, items: usize, buses: u32) -> Result<Self, AllocError> {
        let moves = Vec::with_capacity(alloc, items)?;
        Ok(BusSlots {
            moves,
            buses,
            full: 0,
        })
    }

    /// The first cycle from one on that has a bus.
    pub fn with_bus(&self, cycle: u32) -> u32 {
        let first = cycle.max(self.full);
        let end = first.saturating_add(FAR);
        for c in first..end {
            if at(self.moves.as_slice(), c as usize) < self.buses {
                return c;
            }
        }
        end
    }

    /// One more move in a cycle. The only error is out of memory.
    pub fn book(&mut self, cycle: u32) -> Result<(), AllocError> {
        let n = cycle as usize;
        if self.moves.len() <= n {
            self.moves.resize(n.saturating_add(1), 0)?;
        }
        if n < self.moves.len() {
            self.moves[n] = self.moves[n].saturating_add(1);
        }
        for _ in 0..FAR {
            if at(self.moves.as_slice(), self.full as usize) < self.buses {
                break;
            }
            self.full = self.full.saturating_add(1);
        }
        Ok(())
    }
}
