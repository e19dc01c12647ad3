//! Edges by where they begin: how far each node is from the end, and the nodes one by one.

use crate::edges::Edge;
use crate::ready::Ready;
use std::alloc::{AllocError, Global};

/// The entry of a list, 0 beyond its end.
pub fn at(list: &[u32], n: usize) -> u32 {
    match list.get(n) {
        None => 0,
        Some(k) => *k,
    }
}

/// Puts a number at a place; past the end it does nothing.
fn put(list: &mut Vec<u32>, n: usize, k: u32) {
    if n < list.len() {
        list[n] = k;
    }
}

/// The entry of a list of paths, 0 beyond its end.
pub fn path_at(list: &[i32], n: usize) -> i32 {
    match list.get(n) {
        None => 0,
        Some(k) => *k,
    }
}

/// A path as a number with a sign.
pub fn signed(path: u32) -> i32 {
    match i32::try_from(path) {
        Ok(k) => k,
        Err(_) => i32::MAX,
    }
}

/// Where an edge leads, and how many cycles later that comes at least.
#[derive(Clone, Copy)]
struct Link {
    to: u32,
    gap: i16,
}

const NONE: Link = Link { to: 0, gap: 0 };

/// Edges by where they begin: those of node n are at the places from first[n] to first[n + 1].
#[derive(Drop)]
pub struct Graph {
    first: Vec<u32>,
    links: Vec<Link>,
}

/// For each node how many edges begin in it or in one before it.
fn count_ends(first: &mut Vec<u32>, edges: &[Edge]) {
    for e in edges {
        let n = e.from as usize;
        let count = at(first.as_slice(), n);
        put(first, n, count.saturating_add(1));
    }
    let mut sum = 0u32;
    for n in 0..first.len() {
        sum = sum.saturating_add(first[n]);
        first[n] = sum;
    }
}

impl Graph {
    /// The graph of edges between so many nodes. The only error is out of memory.
    pub fn of(alloc: Global, nodes: usize, edges: &[Edge]) -> Result<Self, AllocError> {
        let mut first = vec![in alloc; 0; nodes.saturating_add(1)]?;
        count_ends(&mut first, edges);
        let mut links = vec![in alloc; NONE; edges.len()]?;
        // From the last place of a node's down to its first, which is then where its edges are.
        for e in edges {
            let from = e.from as usize;
            let k = at(first.as_slice(), from).saturating_sub(1);
            if (k as usize) < links.len() {
                links[k as usize] = Link {
                    to: e.to,
                    gap: e.gap,
                };
            }
            put(&mut first, from, k);
        }
        Ok(Graph { first, links })
    }

    /// The edge at a place, and none past the end.
    fn link(&self, k: u32) -> Link {
        match self.links.get(k as usize) {
            None => NONE,
            Some(e) => *e,
        }
    }

    /// The place of the first edge of a node.
    fn from(&self, node: usize) -> u32 {
        at(self.first.as_slice(), node)
    }

    /// The place after the last edge of a node.
    fn to(&self, node: usize) -> u32 {
        at(self.first.as_slice(), node.saturating_add(1))
    }

    /// The longest path from a node to the end, over its edges, and no shorter than its own.
    pub fn path(&self, paths: &[i32], node: usize, own: i32) -> i32 {
        let mut path = own;
        for k in self.from(node)..self.to(node) {
            let e = self.link(k);
            let later = path_at(paths, e.to as usize);
            path = path.max(later.saturating_add(i32::from(e.gap)));
        }
        path
    }

    /// How many cycles it takes at least from each node to the end, where it takes so many by
    /// itself.
    pub fn paths(&self, own: Vec<i32>) -> Vec<i32> {
        let mut paths = own;
        for node in (0..paths.len()).rev() {
            let path = self.path(paths.as_slice(), node, paths[node]);
            paths[node] = path;
        }
        paths
    }

    /// How many edges end in each of so many nodes.
    fn waits(&self, alloc: Global, nodes: usize) -> Result<Vec<u32>, AllocError> {
        let mut waits = vec![in alloc; 0; nodes]?;
        for e in self.links.as_slice() {
            let to = e.to as usize;
            let count = at(waits.as_slice(), to);
            put(&mut waits, to, count.saturating_add(1));
        }
        Ok(waits)
    }

    /// The nodes, each after those from which an edge leads to it: of those that may be next always
    /// the one that is taken. A node that has to stay last does. The only error is out of memory.
    pub fn in_turn(
        &self,
        alloc: Global,
        paths: &[i32],
        ready: &mut Ready<'_>,
    ) -> Result<Vec<usize>, AllocError> {
        let mut waits = self.waits(alloc, paths.len())?;
        for node in 0..paths.len() {
            if at(waits.as_slice(), node) == 0 {
                ready.add(paths, node)?;
            }
        }
        let mut taken = Vec::with_capacity(alloc, paths.len())?;
        for _ in 0..paths.len() {
            let Some(node) = ready.take()? else {
                break;
            };
            taken.push(node)?;
            self.free(paths, node, &mut waits, ready)?;
        }
        if let Some(node) = ready.last() {
            taken.push(node)?;
        }
        Ok(taken)
    }

    /// The edges from a node hold nothing back any more.
    fn free(
        &self,
        paths: &[i32],
        node: usize,
        waits: &mut Vec<u32>,
        ready: &mut Ready<'_>,
    ) -> Result<(), AllocError> {
        for k in self.from(node)..self.to(node) {
            let to = self.link(k).to as usize;
            let count = at(waits.as_slice(), to).saturating_sub(1);
            put(waits, to, count);
            if count == 0 {
                ready.add(paths, to)?;
            }
        }
        Ok(())
    }
}
