//! Items for which something asks.

use std::alloc::{AllocError, Global};
use tta_arch::{Machine, Op};
use tta_moves::Item;
use tta_moves::numbers::{
    PLACES, guard_place, read_place, register, return_address, written_place,
};
use tta_moves::parts::{is_control, is_unguarded, source_of};
use tta_reorder::operations::{operand_number, started};

/// Marks a place, if one is given.
fn mark(wanted: &mut [bool], place: Option<usize>, is: bool) {
    if let Some(n) = place {
        if n < wanted.len() {
            wanted[n] = is;
        }
    }
}

/// Whether a place is marked, if one is given.
fn is_marked(wanted: &[bool], place: Option<usize>) -> bool {
    match place {
        None => false,
        Some(n) => match wanted.get(n) {
            None => false,
            Some(is) => *is,
        },
    }
}

/// Whether an item does more than write a place.
fn lasts(m: &Machine, x: Item) -> bool {
    is_control(x) || matches!(started(m, x), Some(Op::Stw | Op::Stf | Op::Out | Op::Take))
}

/// Goes before an item that stays.
fn pass(wanted: &mut [bool], m: &Machine, x: Item) {
    if is_unguarded(x) {
        mark(wanted, written_place(m, x), false);
    }
    mark(wanted, read_place(source_of(x)), true);
    mark(wanted, guard_place(x), true);
    mark(wanted, operand_number(m, x), true);
}

/// The numbers of the items for which something asks that stays.
pub fn asked(
    alloc: Global,
    m: &Machine,
    live: &[(u8, u8)],
    items: &[Item],
) -> Result<Vec<usize>, AllocError> {
    let mut wanted = vec![in alloc; false; PLACES]?;
    mark(wanted.as_mut_slice(), Some(return_address()), true);
    for r in live {
        mark(wanted.as_mut_slice(), Some(register(r.0, r.1)), true);
    }
    let mut numbers = Vec::with_capacity(alloc, items.len())?;
    let mut i = items.len();
    while i > 0 {
        i -= 1;
        let x = items[i];
        if lasts(m, x) || is_marked(wanted.as_slice(), written_place(m, x)) {
            pass(wanted.as_mut_slice(), m, x);
            numbers.push(i)?;
        }
    }
    numbers.reverse();
    Ok(numbers)
}
