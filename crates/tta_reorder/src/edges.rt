//! Which items have to come after which.

use crate::marks::StampedMap;
use crate::uses::Uses;
use std::alloc::{AllocError, Global};

/// An item that comes after another in any order of the list that is tried, by their numbers; the
/// channel that this is for; and how many cycles later it comes at least. Fewer than none where it
/// may come before, as a trigger may whose result shows late.
#[derive(Clone, Copy)]
pub struct Edge {
    pub from: u32,
    pub to: u32,
    pub channel: u16,
    pub gap: i16,
}

/// A number in short. A list has at most 2^24 items.
pub fn number_of(n: usize) -> u32 {
    match u32::try_from(n) {
        Ok(k) => k,
        Err(_) => u32::MAX,
    }
}

/// How many cycles after its own what an item writes shows.
fn shows_of(all: &[Uses], item: u32) -> u8 {
    match all.get(item as usize) {
        None => 0,
        Some(u) => u.shows,
    }
}

/// How many cycles lie between two moments of which each is so many cycles after its item's own.
fn gap_of(first: u8, second: u8) -> i16 {
    i16::from(first) - i16::from(second)
}

/// An item reads a channel so many cycles after its own: it comes after the last that changed it.
fn read(
    edges: &mut Vec<Edge>,
    marks: &StampedMap,
    all: &[Uses],
    to: u32,
    channel: Option<u16>,
    after: u8,
) -> Result<(), AllocError> {
    let Some(channel) = channel else {
        return Ok(());
    };
    let Some(from) = marks.get(channel) else {
        return Ok(());
    };
    let gap = gap_of(shows_of(all, from), after);
    edges.push(Edge {
        from,
        to,
        channel,
        gap,
    })?;
    Ok(())
}

/// Notes that an item is the latest at a channel.
fn note(marks: &mut StampedMap, channel: Option<u16>, item: u32) {
    if let Some(c) = channel {
        marks.set(c, item);
    }
}

/// An item changes a channel: what changed it before shows before.
fn rewrite(
    edges: &mut Vec<Edge>,
    marks: &StampedMap,
    all: &[Uses],
    to: u32,
    channel: Option<u16>,
) -> Result<(), AllocError> {
    let Some(channel) = channel else {
        return Ok(());
    };
    let Some(from) = marks.get(channel) else {
        return Ok(());
    };
    let gap = gap_of(shows_of(all, from), shows_of(all, to)).saturating_add(1);
    edges.push(Edge {
        from,
        to,
        channel,
        gap,
    })?;
    Ok(())
}

/// Each item that asks for a channel, or changes it, comes after the last before it that changed it.
pub fn flows(alloc: Global, marks: &mut StampedMap, all: &[Uses]) -> Result<Vec<Edge>, AllocError> {
    marks.begin();
    let mut edges = Vec::with_capacity(alloc, all.len().saturating_mul(4))?;
    for (n, u) in all.iter().enumerate() {
        let to = number_of(n);
        read(&mut edges, marks, all, to, u.source, 0)?;
        read(&mut edges, marks, all, to, u.guard, 0)?;
        read(&mut edges, marks, all, to, u.operand, 1)?;
        read(&mut edges, marks, all, to, u.used, 0)?;
        rewrite(&mut edges, marks, all, to, u.written)?;
        rewrite(&mut edges, marks, all, to, u.stored)?;
        note(marks, u.written, to);
        note(marks, u.stored, to);
    }
    Ok(edges)
}

/// An item reads a channel so many cycles after its own: the next that changes it comes after it.
fn overwrite(
    edges: &mut Vec<Edge>,
    marks: &StampedMap,
    all: &[Uses],
    from: u32,
    channel: Option<u16>,
    after: u8,
) -> Result<(), AllocError> {
    let Some(channel) = channel else {
        return Ok(());
    };
    let Some(to) = marks.get(channel) else {
        return Ok(());
    };
    let gap = gap_of(after, shows_of(all, to)).saturating_add(1);
    edges.push(Edge {
        from,
        to,
        channel,
        gap,
    })?;
    Ok(())
}

/// Each item that changes a channel comes after those before it that ask for it.
pub fn overwrites(
    marks: &mut StampedMap,
    all: &[Uses],
    edges: &mut Vec<Edge>,
) -> Result<(), AllocError> {
    marks.begin();
    for n in (0..all.len()).rev() {
        let u = all[n];
        let from = number_of(n);
        overwrite(edges, marks, all, from, u.source, 0)?;
        overwrite(edges, marks, all, from, u.guard, 0)?;
        overwrite(edges, marks, all, from, u.operand, 1)?;
        overwrite(edges, marks, all, from, u.used, 0)?;
        note(marks, u.written, from);
        note(marks, u.stored, from);
    }
    Ok(())
}
