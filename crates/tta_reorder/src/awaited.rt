//! How far items are from the end of their list, by what they bring to later ones alone.

use crate::marks::StampedMap;
use crate::uses::Uses;
use std::alloc::{AllocError, Global};

/// How many cycles are needed from when a channel shows what is asked of it.
fn asked(marks: &StampedMap, channel: Option<u16>) -> u32 {
    let Some(c) = channel else {
        return 0;
    };
    match marks.get(c) {
        None => 0,
        Some(path) => path,
    }
}

/// An item after which so many cycles are needed asks for a channel.
fn ask(marks: &mut StampedMap, channel: Option<u16>, path: u32) {
    if let Some(c) = channel {
        let before = asked(marks, channel);
        marks.set(c, before.max(path));
    }
}

/// Nothing is asked of a channel any longer.
fn answer(marks: &mut StampedMap, channel: Option<u16>) {
    if let Some(c) = channel {
        marks.unset(c);
    }
}

/// The path of an item, and what it asks of those before it.
fn path_of(marks: &mut StampedMap, u: Uses) -> u32 {
    let after = asked(marks, u.written).max(asked(marks, u.stored));
    let later = if after > 0 {
        after.saturating_add(u32::from(u.shows))
    } else {
        0
    };
    let path = later.max(u32::from(u.takes));
    answer(marks, u.written);
    answer(marks, u.stored);
    ask(marks, u.source, path);
    ask(marks, u.guard, path);
    // An operation takes its operand as the cycle's own moves leave it.
    ask(marks, u.operand, path.saturating_sub(1));
    ask(marks, u.used, path);
    path
}

/// How many cycles it takes at least from each item to the end of the list, where each only waits
/// for what it asks for. The only error is out of memory.
pub fn flow_paths(
    alloc: Global,
    marks: &mut StampedMap,
    all: &[Uses],
) -> Result<Vec<u32>, AllocError> {
    marks.begin();
    let mut paths = vec![in alloc; 0; all.len()]?;
    for n in (0..all.len()).rev() {
        paths[n] = path_of(marks, all[n]);
    }
    Ok(paths)
}
