//! Groups of items: the list is cut where nothing but home registers and spaces goes on.

use crate::edges::{Edge, number_of};
use crate::graph::at;
use crate::marks::StampedMap;
use crate::uses::Uses;
use std::alloc::{AllocError, Global};
use tta_moves::numbers::{immediate, register, return_address};

/// How many of the first registers of the hub are scratch registers.
const SCRATCH: u8 = 3;

/// Whether a channel is a scratch register of the hub, an immediate register or a port.
pub fn is_passing(hub: u8, channel: u16) -> bool {
    let channel = usize::from(channel);
    (register(hub, 0) <= channel && channel < register(hub, SCRATCH))
        || (immediate(0, 0) <= channel && channel < return_address())
}

/// The passing channels whose words are still asked for, on the way up a list, and how many.
#[derive(Drop)]
struct Awaited<'m> {
    hub: u8,
    count: usize,
    marks: &'m mut StampedMap,
}

impl Awaited<'_> {
    /// A channel is no longer waited for.
    fn done(&mut self, channel: Option<u16>) {
        let Some(c) = channel else {
            return;
        };
        if self.marks.get(c).is_some() {
            self.marks.unset(c);
            self.count = self.count.saturating_sub(1);
        }
    }

    /// A channel of the hub's passing registers is waited for.
    fn asked(&mut self, channel: Option<u16>) {
        let Some(c) = channel else {
            return;
        };
        if is_passing(self.hub, c) && self.marks.get(c).is_none() {
            self.marks.set(c, 0);
            self.count = self.count.saturating_add(1);
        }
    }

    /// What is waited for before an item, by what is waited for after it.
    fn before(&mut self, u: Uses) {
        self.done(u.written);
        self.asked(u.source);
        self.asked(u.operand);
        if u.is_guarded {
            self.asked(u.guard);
            self.asked(u.written);
        }
    }
}

/// The numbers of the first items of the groups, in rising order. The only error is out of memory.
pub fn starts_of(
    alloc: Global,
    marks: &mut StampedMap,
    hub: u8,
    all: &[Uses],
) -> Result<Vec<u32>, AllocError> {
    marks.begin();
    let mut awaited = Awaited {
        hub,
        count: 0,
        marks,
    };
    let mut starts = Vec::with_capacity(alloc, all.len())?;
    for n in (0..all.len()).rev() {
        awaited.before(all[n]);
        if awaited.count == 0 || n == 0 {
            starts.push(number_of(n))?;
        }
    }
    starts.reverse();
    Ok(starts)
}

/// The group of each item.
pub fn groups_of(alloc: Global, items: usize, starts: &[u32]) -> Result<Vec<u32>, AllocError> {
    let mut groups = Vec::with_capacity(alloc, items)?;
    let mut group = 0u32;
    for n in 0..items {
        if at(starts, (group as usize).saturating_add(1)) as usize == n && n > 0 {
            group = group.saturating_add(1);
        }
        groups.push(group)?;
    }
    Ok(groups)
}

/// The edges between groups, without those for passing channels.
pub fn between(
    alloc: Global,
    hub: u8,
    groups: &[u32],
    edges: &[Edge],
) -> Result<Vec<Edge>, AllocError> {
    let mut kept = Vec::with_capacity(alloc, edges.len())?;
    for e in edges {
        let from = at(groups, e.from as usize);
        let to = at(groups, e.to as usize);
        if from != to && !is_passing(hub, e.channel) {
            kept.push(Edge { from, to, ..*e })?;
        }
    }
    Ok(kept)
}

/// Whether each of so many groups but the first comes after the one before it: then they have no
/// other order. The only error is out of memory.
pub fn is_chain(alloc: Global, count: usize, edges: &[Edge]) -> Result<bool, AllocError> {
    let mut follows = vec![in alloc; false; count]?;
    if count > 0 {
        follows[0] = true;
    }
    for e in edges {
        let to = e.to as usize;
        if to < follows.len() && e.from.saturating_add(1) == e.to {
            follows[to] = true;
        }
    }
    Ok(follows.as_slice().iter().all(|is| *is))
}
