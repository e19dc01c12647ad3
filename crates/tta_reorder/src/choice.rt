//! Numbers of items in an order that is likely to be short.

use crate::awaited::flow_paths;
use crate::clock::{IssueEstimate, end_of};
use crate::edges::{Edge, flows, number_of, overwrites};
use crate::graph::{Graph, at, signed};
use crate::groups::{between, groups_of, is_chain, starts_of};
use crate::latest::latest_paths;
use crate::marks::StampedMap;
use crate::ready::{Ready, Ties};
use crate::uses::{Uses, all_uses};
use std::alloc::{AllocError, Global};
use tta_arch::Machine;
use tta_moves::parts::is_control;
use tta_moves::{Item, PlacedItem};

/// By what an order is chosen.
#[derive(Clone, Copy, Debug, PartialEq, Eq)]
pub enum Rule {
    /// Item by item: that with the longest path to the block's end comes first, and of such the
    /// first or the last of the list.
    Items(Ties),
    /// By groups, each of which is what one step of register code became: of those that may be next
    /// the last of the list comes first.
    Groups,
    /// By the same groups: that comes first which can begin first beside those before it, of such
    /// that with the longest path to the block's end, and of such the first of the list.
    Cycles,
}

/// How many cycles each item takes by itself. The only error is out of memory.
fn own_paths(alloc: Global, all: &[Uses]) -> Result<Vec<i32>, AllocError> {
    let mut own = Vec::with_capacity(alloc, all.len())?;
    for u in all {
        own.push(i32::from(u.takes))?;
    }
    Ok(own)
}

/// The number of the control item, if there is one.
fn control_of(items: &[Item]) -> Option<usize> {
    match items.last() {
        Some(x) if is_control(*x) => Some(items.len() - 1),
        _ => None,
    }
}

/// Which items have to come after which. The only error is out of memory.
fn edges_of(alloc: Global, marks: &mut StampedMap, all: &[Uses]) -> Result<Vec<Edge>, AllocError> {
    let mut edges = flows(alloc, marks, all)?;
    overwrites(marks, all, &mut edges)?;
    Ok(edges)
}

/// So many numbers, counted up from 0. The only error is out of memory.
fn counted(alloc: Global, count: usize) -> Result<Vec<usize>, AllocError> {
    let mut numbers = Vec::with_capacity(alloc, count)?;
    for n in 0..count {
        numbers.push(n)?;
    }
    Ok(numbers)
}

/// The numbers of items, of those that may be next always that with the longest path. The only error
/// is out of memory.
fn by_paths(
    alloc: Global,
    graph: &Graph,
    paths: &[i32],
    last: Option<usize>,
    ties: Ties,
) -> Result<Vec<usize>, AllocError> {
    let mut ready = Ready::new(alloc, paths.len(), last, None, ties)?;
    let order = graph.in_turn(alloc, paths, &mut ready);
    // Dropped here as a whole, so that no part of it is left to drop at the end.
    drop(ready);
    order
}

/// The numbers of items in the order of single items. The only error is out of memory.
fn by_items(
    alloc: Global,
    marks: &mut StampedMap,
    all: &[Uses],
    last: Option<usize>,
    ties: Ties,
) -> Result<Vec<usize>, AllocError> {
    let edges = edges_of(alloc, marks, all)?;
    let graph = Graph::of(alloc, all.len(), edges.as_slice())?;
    let paths = graph.paths(own_paths(alloc, all)?);
    by_paths(alloc, &graph, paths.as_slice(), last, ties)
}

/// Lets copies of results show as early as the results do: what reads them will mostly read the
/// port.
fn bypass_copies(all: &mut Vec<Uses>) {
    for u in all.iter_mut() {
        if u.is_copy {
            u.shows = 0;
        }
    }
}

/// The longest path of an item of each group. The only error is out of memory.
fn longest(
    alloc: Global,
    groups: &[u32],
    count: usize,
    paths: &[u32],
) -> Result<Vec<i32>, AllocError> {
    let mut most = vec![in alloc; 0; count]?;
    for (n, group) in groups.iter().enumerate() {
        let path = signed(at(paths, n));
        let g = *group as usize;
        if g < most.len() {
            most[g] = most[g].max(path);
        }
    }
    Ok(most)
}

/// The numbers of the items of groups. The only error is out of memory.
fn members(
    alloc: Global,
    order: &[usize],
    starts: &[u32],
    items: usize,
) -> Result<Vec<usize>, AllocError> {
    let mut numbers = Vec::with_capacity(alloc, items)?;
    for group in order {
        for n in at(starts, *group) as usize..end_of(starts, *group, items) {
            numbers.push(n)?;
        }
    }
    Ok(numbers)
}

/// How far each group is from the end, where the rule looks at that; else all are as far. The only
/// error is out of memory.
fn paths_of(
    alloc: Global,
    marks: &mut StampedMap,
    all: &[Uses],
    groups: &[u32],
    count: usize,
    is_clocked: bool,
) -> Result<Vec<i32>, AllocError> {
    if !is_clocked {
        return Ok(vec![in alloc; 0; count]?);
    }
    let paths = flow_paths(alloc, marks, all)?;
    longest(alloc, groups, count, paths.as_slice())
}

/// The numbers of items in an order of groups, of which the last stays last where it has control:
/// with a number of buses, cycle by cycle, and else from the last to the first as far as they can go.
/// The only error is out of memory.
fn by_groups(
    alloc: Global,
    marks: &mut StampedMap,
    hub: u8,
    all: &mut Vec<Uses>,
    is_ended: bool,
    buses: Option<u32>,
) -> Result<Vec<usize>, AllocError> {
    let starts = starts_of(alloc, marks, hub, all.as_slice())?;
    let groups = groups_of(alloc, all.len(), starts.as_slice())?;
    let count = starts.len();
    bypass_copies(all);
    let edges = edges_of(alloc, marks, all.as_slice())?;
    let kept = between(alloc, hub, groups.as_slice(), edges.as_slice())?;
    let last = if is_ended { count.checked_sub(1) } else { None };
    if is_chain(alloc, last.unwrap_or(count), kept.as_slice())? {
        return counted(alloc, all.len());
    }
    let is_clocked = buses.is_some();
    let paths = paths_of(
        alloc,
        marks,
        all.as_slice(),
        groups.as_slice(),
        count,
        is_clocked,
    )?;
    let graph = Graph::of(alloc, count, kept.as_slice())?;
    let ties = if is_clocked { Ties::First } else { Ties::Last };
    let clock = clock_with(alloc, all.as_slice(), starts.as_slice(), marks, buses)?;
    let mut ready = Ready::new(alloc, count, last, clock, ties)?;
    let order = graph.in_turn(alloc, paths.as_slice(), &mut ready);
    // Dropped here as a whole, so that no part of it is left to drop at the end.
    drop(ready);
    let order = order?;
    members(alloc, order.as_slice(), starts.as_slice(), all.len())
}

/// A clock, where a number of buses is given. The only error is out of memory.
fn clock_with<'c>(
    alloc: Global,
    all: &'c [Uses],
    starts: &'c [u32],
    marks: &'c mut StampedMap,
    buses: Option<u32>,
) -> Result<Option<IssueEstimate<'c>>, AllocError> {
    match buses {
        None => Ok(None),
        Some(n) => Ok(Some(IssueEstimate::new(alloc, all, starts, marks, n)?)),
    }
}

/// The numbers of a list's items in the order that a rule gives. The only error is out of memory.
pub fn chosen(
    alloc: Global,
    marks: &mut StampedMap,
    m: &Machine,
    hub: u8,
    items: &[Item],
    rule: Rule,
) -> Result<Vec<usize>, AllocError> {
    let mut all = all_uses(alloc, m, items)?;
    let last = control_of(items);
    let is_ended = last.is_some();
    let buses = Some(number_of(m.buses.len()));
    match rule {
        Rule::Items(ties) => by_items(alloc, marks, all.as_slice(), last, ties),
        Rule::Groups => by_groups(alloc, marks, hub, &mut all, is_ended, None),
        Rule::Cycles => by_groups(alloc, marks, hub, &mut all, is_ended, buses),
    }
}

/// The numbers of the items of a placed list in the order in which they stand where each stands as late
/// as it may, in no more cycles; of such the last of the list first. The only error is out of memory.
pub fn by_latest(
    alloc: Global,
    marks: &mut StampedMap,
    m: &Machine,
    items: &[Item],
    placed: &[PlacedItem],
) -> Result<Vec<usize>, AllocError> {
    let all = all_uses(alloc, m, items)?;
    let edges = edges_of(alloc, marks, all.as_slice())?;
    let graph = Graph::of(alloc, all.len(), edges.as_slice())?;
    let buses = number_of(m.buses.len());
    let paths = latest_paths(alloc, marks, &graph, all.as_slice(), placed, buses)?;
    by_paths(
        alloc,
        &graph,
        paths.as_slice(),
        control_of(items),
        Ties::Last,
    )
}
