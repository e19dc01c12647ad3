//! Where each slot is loaded next.

use crate::accesses::Access;
use arrayvec::ArrayVec;
use std::alloc::{AllocError, Global};

/// No later load is known.
pub const NEVER: usize = usize::MAX;

/// A slot, and the number of the next item that loads it.
#[derive(Clone, Copy, Default)]
struct Load {
    slot: u32,
    at: usize,
}

/// The next load of a slot by these.
fn next_of(loads: &[Load], slot: u32) -> usize {
    for load in loads {
        if load.slot == slot {
            return load.at;
        }
    }
    NEVER
}

/// These with another next load of a slot, put first. The last goes where there is no room.
fn with_load(loads: &[Load], slot: u32, at: usize) -> ArrayVec<Load, 32> {
    let mut out = ArrayVec::new();
    out.push(Load { slot, at });
    for load in loads {
        if load.slot != slot && !out.is_full() {
            out.push(*load);
        }
    }
    out
}

/// What an item with this number leaves of these on the way up.
fn before(loads: &[Load], access: Access, at: usize) -> ArrayVec<Load, 32> {
    match access {
        Access::Loads(slot) => with_load(loads, slot, at),
        Access::Stores(slot) => with_load(loads, slot, NEVER),
        Access::Nothing | Access::Unknown => ArrayVec::new(),
    }
}

/// The slot that an item loads or stores.
fn slot_of(access: Access) -> Option<u32> {
    match access {
        Access::Loads(slot) | Access::Stores(slot) => Some(slot),
        Access::Nothing | Access::Unknown => None,
    }
}

/// For each item that loads or stores a slot the number of the next item that loads the slot, with
/// no store into it between. The only error is out of memory.
pub fn next_loads(alloc: Global, accesses: &[Access]) -> Result<Vec<usize>, AllocError> {
    let mut loads: ArrayVec<Load, 32> = ArrayVec::new();
    let mut next = Vec::with_capacity(alloc, accesses.len())?;
    let mut i = accesses.len();
    while i > 0 {
        i -= 1;
        let access = accesses[i];
        let at = match slot_of(access) {
            None => NEVER,
            Some(slot) => next_of(loads.as_slice(), slot),
        };
        next.push(at)?;
        if !matches!(access, Access::Nothing) {
            loads = before(loads.as_slice(), access, i);
        }
    }
    next.reverse();
    Ok(next)
}
