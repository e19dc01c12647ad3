//! The nodes that may be next.

use crate::clock::IssueEstimate;
use crate::edges::number_of;
use crate::graph::path_at;
use std::alloc::{AllocError, Global};
use std::collections::BinaryHeap;

/// How many nodes are compared for the next one, at most.
const WINDOW: usize = 8;

/// Which of some nodes that are as good is taken: the first or the last of the list.
#[derive(Clone, Copy, Debug, PartialEq, Eq)]
pub enum Ties {
    First,
    Last,
}

/// A node that may be next: the greater, the sooner it is taken.
#[derive(Clone, Copy, PartialEq, Eq, PartialOrd, Ord)]
struct Next {
    /// How early it could begin: the greatest number less its cycle.
    early: u32,
    path: i32,
    /// Its place in the list, which decides between nodes that are as good.
    rank: u32,
}

/// The nodes that may be next: with a clock, that which can begin first; of such, or without a
/// clock, that with the longest path; of such the first or the last of the list.
#[derive(Drop)]
pub struct Ready<'c> {
    nodes: usize,
    /// The node that has to stay last.
    last: Option<usize>,
    clock: Option<IssueEstimate<'c>>,
    ties: Ties,
    heap: BinaryHeap<Next>,
    passed: Vec<Next>,
}

impl<'c> Ready<'c> {
    /// No node of so many is ready. It fails only where there is no memory.
    pub fn new(
        alloc: Global,
        nodes: usize,
        last: Option<usize>,
        clock: Option<IssueEstimate<'c>>,
        ties: Ties,
    ) -> Result<Self, AllocError> {
        let heap = BinaryHeap::with_capacity(alloc, nodes)?;
        Ok(Ready {
            nodes,
            last,
            clock,
            ties,
            heap,
            passed: Vec::new(alloc),
        })
    }

    /// The node that has to stay last, if there is one.
    pub fn last(&self) -> Option<usize> {
        self.last
    }

    /// How early a node may stand: the greater, the earlier; 0 without a clock.
    fn early(&self, node: usize) -> u32 {
        match &self.clock {
            None => 0,
            Some(clock) => u32::MAX.saturating_sub(clock.start_of(node)),
        }
    }

    /// The rank of a node: how many nodes come after it in the list, or before it.
    fn rank(&self, node: usize) -> u32 {
        match self.ties {
            Ties::First => number_of(self.nodes.saturating_sub(node)),
            Ties::Last => number_of(node),
        }
    }

    /// The node of an entry of the heap.
    fn node(&self, next: Next) -> usize {
        let rank = next.rank as usize;
        match self.ties {
            Ties::First => self.nodes.saturating_sub(rank),
            Ties::Last => rank,
        }
    }

    /// A node may be next from now on. It fails only where there is no memory.
    pub fn add(&mut self, paths: &[i32], node: usize) -> Result<(), AllocError> {
        if self.last == Some(node) {
            return Ok(());
        }
        let early = self.early(node);
        let rank = self.rank(node);
        self.heap.push(Next {
            early,
            path: path_at(paths, node),
            rank,
        })?;
        Ok(())
    }

    /// The best of the nodes that were ready earliest. How early each could begin is looked at
    /// again, since other nodes were taken meanwhile.
    fn best(&mut self) -> Result<Option<Next>, AllocError> {
        let mut best = None;
        for _ in 0..WINDOW {
            let Some(x) = self.heap.pop() else {
                break;
            };
            let early = self.early(self.node(x));
            let y = Next { early, ..x };
            best = self.better(best, y)?;
            if early == x.early {
                break;
            }
        }
        Ok(best)
    }

    /// The better of two entries; the other one is put back later. The only error is out of memory.
    fn better(&mut self, best: Option<Next>, y: Next) -> Result<Option<Next>, AllocError> {
        let Some(x) = best else {
            return Ok(Some(y));
        };
        if x < y {
            self.passed.push(x)?;
            Ok(Some(y))
        } else {
            self.passed.push(y)?;
            Ok(best)
        }
    }

    /// Puts back the entries that were passed over. The only error is out of memory.
    fn put_back(&mut self) -> Result<(), AllocError> {
        for x in self.passed.as_slice() {
            self.heap.push(*x)?;
        }
        self.passed.clear();
        Ok(())
    }

    /// Takes the next node. It fails only where there is no memory.
    pub fn take(&mut self) -> Result<Option<usize>, AllocError> {
        let best = self.best()?;
        self.put_back()?;
        let Some(x) = best else {
            return Ok(None);
        };
        let node = self.node(x);
        if let Some(clock) = &mut self.clock {
            clock.begin(node)?;
        }
        Ok(Some(node))
    }
}
