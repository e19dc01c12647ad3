//! Copies of words that a later load asks for.

ghost use Rattle.std.specs.Prelude.{◌≡◌, true, IfSome};
ghost use Rattle.tta_arch.specs.Effects.{KeptReg};
ghost use Rattle.tta_moves.specs.Touches.{is_unguarded};
ghost use Rattle.tta_loadelim.specs.Copied.{is_one_of, copy_of};

use crate::accesses::{Access, sure_port};
use crate::available_slots::AvailableSlots;
use crate::serving::alternative;
use crate::upcoming::NEVER;
use arrayvec::ArrayVec;
use tta_arch::{Dest, Source};
use tta_connect::TargetMachine;
use tta_moves::Item;
use tta_moves::parts::source_of;

/// The slot whose word a register keeps, and the number of the next item that loads it.
#[derive(Clone, Copy, Default)]
pub struct Kept {
    pub slot: u32,
    pub next: usize,
}

/// What is not loaded again.
const NOTHING: Kept = Kept {
    slot: 0,
    next: NEVER,
};

/// What the choice of copies looks at: the machine, and of each item what it does with the frame and
/// which item next loads its slot.
#[derive(Clone, Copy)]
pub struct Plan<'a> {
    pub on: &'a TargetMachine<'a>,
    pub hub: u8,
    pub accesses: &'a [Access],
    pub next: &'a [usize],
}

/// What a register keeps after an item.
fn kept_after(k: Kept, access: Access, next: usize) -> Kept {
    match access {
        Access::Nothing => k,
        Access::Loads(slot) => {
            if k.slot == slot && k.next != NEVER {
                Kept { slot, next }
            } else {
                k
            }
        }
        Access::Stores(slot) => { if k.slot == slot { NOTHING } else { k } }
        Access::Unknown => NOTHING,
    }
}

/// What all registers keep after an item that uses the frame.
fn all_after(kept: &[Kept], access: Access, next: usize) -> ArrayVec<Kept, 2> {
    let mut out = ArrayVec::new();
    for k in kept {
        if !out.is_full() {
            out.push(kept_after(*k, access, next));
        }
    }
    out
}

/// What all registers keep after one, counted from 0, is given another word.
fn all_with(kept: &[Kept], number: usize, word: Kept) -> ArrayVec<Kept, 2> {
    let mut out = ArrayVec::new();
    for (i, k) in kept.iter().enumerate() {
        if !out.is_full() {
            out.push(if i == number { word } else { *k });
        }
    }
    out
}

/// The number of the register whose word is loaded last, if that is after another item.
fn last_wanted(kept: &[Kept], next: usize) -> Option<usize> {
    let mut best = None;
    let mut last = next;
    for (i, k) in kept.iter().enumerate() {
        if k.next > last {
            best = Some(i);
            last = k.next;
        }
    }
    best
}

/// What an item does with the frame, by its number.
fn access_at(accesses: &[Access], i: usize) -> Access {
    match accesses.get(i) {
        None => Access::Nothing,
        Some(a) => *a,
    }
}

/// The next load of an item's slot, by the item's number.
fn next_at(next: &[usize], i: usize) -> usize {
    match next.get(i) {
        None => NEVER,
        Some(at) => *at,
    }
}

/// The slot whose word an item moves, of a store or of a load just before, with its next load.
fn moved(plan: &Plan<'_>, i: usize) -> Option<Kept> {
    if let Access::Stores(slot) = access_at(plan.accesses, i) {
        let next = next_at(plan.next, i);
        return Some(Kept { slot, next });
    }
    if i == 0 {
        return None;
    }
    match access_at(plan.accesses, i - 1) {
        Access::Loads(slot) => {
            let next = next_at(plan.next, i - 1);
            Some(Kept { slot, next })
        }
        _ => None,
    }
}

/// Whether an item takes a result from its port in any case.
fn is_result(x: Item) -> bool
    ensures { result ≡ true → is_unguarded x ≡ true }
{
    match sure_port(x) {
        None => false,
        Some(src) => matches!(src, Source::Shown { .. }),
    }
}

/// The word that is worth a copy before an item: a result that is loaded later, and that nothing
/// else has.
fn worth(plan: &Plan<'_>, known: &AvailableSlots, i: usize, x: Item) -> Option<Kept>
    ensures { IfSome result (λ k. is_unguarded x ≡ true) }
{
    if !is_result(x) {
        return None;
    }
    let Some(word) = moved(plan, i) else {
        return None;
    };
    if word.next == NEVER {
        return None;
    }
    match alternative(plan.on, plan.hub, known, x) {
        None => Some(word),
        Some(_) => None,
    }
}

/// A register of these by its number.
fn register_at(fresh: &[(u8, u8)], number: usize) -> Option<(u8, u8)>
    ensures { IfSome result (λ r. is_one_of fresh.now (KeptReg r.0 r.1) ≡ true) }
{
    match fresh.get(number) {
        None => None,
        Some(r) => Some(*r),
    }
}

/// The word of an item into a register as well.
pub fn copy_of(x: Item, r: (u8, u8)) -> Item
    ensures { result ≡ copy_of x r }
{
    Item::Move {
        guard: None,
        src: source_of(x),
        dst: Dest::Reg {
            file: r.0,
            index: r.1,
        },
    }
}

/// What all registers keep after the item of a number.
pub fn kept_past(kept: ArrayVec<Kept, 2>, plan: &Plan<'_>, i: usize) -> ArrayVec<Kept, 2> {
    match access_at(plan.accesses, i) {
        Access::Nothing => kept,
        access => all_after(kept.as_slice(), access, next_at(plan.next, i)),
    }
}

/// The register into which the word of an item is to be copied, which then keeps it.
pub fn chosen(
    plan: &Plan<'_>,
    known: &AvailableSlots,
    kept: &mut ArrayVec<Kept, 2>,
    fresh: &[(u8, u8)],
    i: usize,
    x: Item,
) -> Option<(u8, u8)>
    ensures sure { IfSome result (λ r. is_unguarded x ≡ true) }
    ensures one { IfSome result (λ r. is_one_of fresh.now (KeptReg r.0 r.1) ≡ true) }
{
    let Some(word) = worth(plan, known, i, x) else {
        return None;
    };
    let Some(number) = last_wanted(kept.as_slice(), word.next) else {
        return None;
    };
    let Some(r) = register_at(fresh, number) else {
        return None;
    };
    *kept = all_with(kept.as_slice(), number, word);
    Some(r)
}

/// Registers that keep nothing, as many as these.
pub fn nothing_kept(fresh: &[(u8, u8)]) -> ArrayVec<Kept, 2> {
    let mut out = ArrayVec::new();
    for _r in fresh {
        if !out.is_full() {
            out.push(NOTHING);
        }
    }
    out
}
