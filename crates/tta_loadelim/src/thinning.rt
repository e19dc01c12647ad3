//! Stores into slots that the list stores into again before it loads them.

ghost use Rattle.std.specs.Prelude.{◌≡◌, ◌==◌, ℕ, [], not, true, false, filter, length, ◌≤◌};
ghost use Rattle.std.specs.Prelude.{IfOk, IfSome};
ghost use Rattle.std.specs.Option.{option_map_or};
ghost use Rattle.tta_loadelim.specs.Thinned.{is_in, lets_stay, AreThinned};

use crate::accesses::{Access, accesses, loaded, operand_after, stored};
use arrayvec::ArrayVec;
use std::alloc::{AllocError, Global};
use tta_arch::{Machine, Op};
use tta_moves::Item;
use tta_reorder::operations::started;

/// Whether a slot is one of some.
fn is_in(slot: u32, slots: &[u32]) -> bool
    ensures { result ≡ is_in slot slots.now }
{
    slots.iter().any(|s| *s == slot)
}

/// Whether a slot is the one that is given, if one is.
fn is_slot(slot: Option<u32>, other: u32) -> bool
    ensures { result ≡ option_map_or (λ v. v == other) slot false }
{
    match slot {
        None => false,
        Some(v) => v == other,
    }
}

/// All of these but one, if one is given.
fn without(slots: &[u32], slot: Option<u32>) -> ArrayVec<u32, 32>
    requires { length slots.now ≤ 32 }
    ensures { result.items
        ≡ filter (λ w. not (option_map_or (λ v. v == w) slot false)) slots.now }
{
    let mut out = ArrayVec::new();
    for s in slots {
        if !is_slot(slot, *s) {
            out.push(*s);
        }
    }
    out
}

/// The slots that are stored into before they are loaded, an item further up.
fn over_before(over: &ArrayVec<u32, 32>, access: Access) -> ArrayVec<u32, 32> {
    match access {
        Access::Nothing => without(over.as_slice(), None),
        Access::Loads(slot) => without(over.as_slice(), Some(slot)),
        Access::Stores(slot) => {
            let mut out = without(over.as_slice(), Some(slot));
            if !out.is_full() {
                out.push(slot);
            }
            out
        }
        Access::Unknown => ArrayVec::new(),
    }
}

/// Whether an item stores into a slot that is stored into again.
fn is_over(over: &ArrayVec<u32, 32>, access: Access) -> bool {
    match access {
        Access::Stores(slot) => is_in(slot, over.as_slice()),
        Access::Nothing | Access::Loads(_) | Access::Unknown => false,
    }
}

/// Which items store into a slot that is stored into again before it is loaded. The only error is
/// out of memory.
fn stored_over(alloc: Global, accesses: &[Access]) -> Result<Vec<bool>, AllocError> {
    let mut over: ArrayVec<u32, 32> = ArrayVec::new();
    let mut marks = Vec::with_capacity(alloc, accesses.len())?;
    let mut i = accesses.len();
    while i > 0 {
        i -= 1;
        marks.push(is_over(&over, accesses[i]))?;
        if !matches!(accesses[i], Access::Nothing) {
            over = over_before(&over, accesses[i]);
        }
    }
    marks.reverse();
    Ok(marks)
}

/// Whether an item is marked, by its number.
fn mark_at(marks: &[bool], i: usize) -> bool {
    match marks.get(i) {
        None => false,
        Some(mark) => *mark,
    }
}

/// Whether an item that stays lets the stores into some slots go before it.
fn lets_stay(m: &Machine, pending: &[u32], x: Item) -> bool
    ensures { result ≡ true
        → (slot : ℕ) → is_in slot pending.now ≡ true → lets_stay m.now slot x ≡ true }
{
    match started(m, x) {
        Some(Op::Take) => pending.is_empty(),
        Some(Op::Ldf) => match loaded(m, x) {
            None => pending.is_empty(),
            Some(slot) => !is_in(slot, pending),
        },
        _ => true,
    }
}

/// The items but those that are marked, where each of these stores into a slot that a later item
/// stores into before any loads it, and none else. The only error is out of memory.
fn unmarked(
    alloc: Global,
    m: &Machine,
    marks: &[bool],
    items: &[Item],
) -> Result<Option<Vec<Item>>, AllocError>
    ensures { IfOk result (λ o. IfSome o (λ v. AreThinned m.now [] items.now v.items)) }
{
    let mut last = None;
    let mut pending: ArrayVec<u32, 32> = ArrayVec::new();
    let mut out = Vec::with_capacity(alloc, items.len())?;
    for (i, x) in items.iter().enumerate() {
        let slot = stored(m, last, *x);
        last = operand_after(last, *x);
        if mark_at(marks, i) {
            let Some(v) = slot else {
                return Ok(None);
            };
            if pending.is_full() {
                return Ok(None);
            }
            pending.push(v);
            continue;
        }
        if !lets_stay(m, pending.as_slice(), *x) {
            return Ok(None);
        }
        pending = without(pending.as_slice(), slot);
        out.push(*x)?;
    }
    if pending.as_slice().is_empty() {
        Ok(Some(out))
    } else {
        Ok(None)
    }
}

/// The items but stores into slots that a later item stores into before any loads them; none where
/// it is not known that all of these can go. The only error is out of memory.
pub fn without_dead_stores(
    alloc: Global,
    m: &Machine,
    items: &[Item],
) -> Result<Option<Vec<Item>>, AllocError>
    ensures { IfOk result (λ o. IfSome o (λ v. AreThinned m.now [] items.now v.items)) }
{
    let all = accesses(alloc, m, items)?;
    let marks = stored_over(alloc, all.as_slice())?;
    unmarked(alloc, m, marks.as_slice(), items)
}
