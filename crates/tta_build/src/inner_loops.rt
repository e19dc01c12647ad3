//! Which blocks stand in innermost loops. Nothing is proved of that: it says where one more candidate is
//! worth its time.

use std::alloc::{AllocError, Global};
use tta_arch::Dest;
use tta_moves::{BlockList, Item, ItemSource, LongValue};

/// The block whose address an item gives, by its number, if it gives one.
fn address_in(x: Item) -> Option<usize> {
    match x {
        Item::Move {
            src: ItemSource::Address(block),
            ..
        } => Some(block as usize),
        Item::Long {
            value: LongValue::Address(block),
            ..
        } => Some(block as usize),
        _ => None,
    }
}

/// Whether an item jumps.
fn is_jump(x: Item) -> bool {
    match x {
        Item::Move { dst, .. } => matches!(dst, Dest::Jump),
        Item::Long { .. } => false,
    }
}

/// The block to which a list jumps, by its number, if it does.
fn target_of(items: &[Item]) -> Option<usize> {
    let Some(last) = items.last() else {
        return None;
    };
    if !is_jump(*last) {
        return None;
    }
    let mut target = None;
    for x in items {
        target = address_in(*x).or(target);
    }
    target
}

/// Notes that the blocks from one to another stand in an innermost loop.
fn note(inside: &mut Vec<bool>, first: usize, last: usize) {
    for n in first..=last {
        if n < inside.len() {
            inside[n] = true;
        }
    }
}

/// Whether each of some blocks stands in an innermost loop: between one that jumps back and the one to
/// which it does, with no other loop between them. The only error is out of memory.
pub fn in_inner_loops(alloc: Global, blocks: &[BlockList]) -> Result<Vec<bool>, AllocError> {
    let mut inside = vec![in alloc; false; blocks.len()]?;
    // Each block before this one stands before or in an earlier loop.
    let mut free = 0;
    for (n, b) in blocks.iter().enumerate() {
        match target_of(b.items.as_slice()) {
            Some(first) if first <= n => {
                if free <= first {
                    note(&mut inside, first, n);
                }
                free = n + 1;
            }
            _ => {}
        }
    }
    Ok(inside)
}

/// Whether a block is marked, by its number.
pub fn is_marked(inside: &[bool], block: usize) -> bool {
    match inside.get(block) {
        None => false,
        Some(is) => *is,
    }
}
