//! Whether serving loads could gain anything.

use crate::accesses::Access;
use arrayvec::ArrayVec;

/// Whether a slot is one of some, or may be.
fn may_have(slots: &ArrayVec<u32, 32>, slot: u32) -> bool {
    slots.is_full() || slots.as_slice().iter().any(|s| *s == slot)
}

fn add(slots: &mut ArrayVec<u32, 32>, slot: u32) {
    if !slots.is_full() {
        slots.push(slot);
    }
}

/// Whether there can be something to gain: a slot is loaded that was loaded or stored into before, or
/// stored into that was stored into before.
pub fn is_worth(accesses: &[Access]) -> bool {
    let mut used: ArrayVec<u32, 32> = ArrayVec::new();
    let mut stored: ArrayVec<u32, 32> = ArrayVec::new();
    for a in accesses {
        match *a {
            Access::Nothing | Access::Unknown => {}
            Access::Loads(slot) => {
                if may_have(&used, slot) {
                    return true;
                }
                add(&mut used, slot);
            }
            Access::Stores(slot) => {
                if may_have(&stored, slot) {
                    return true;
                }
                add(&mut stored, slot);
                add(&mut used, slot);
            }
        }
    }
    false
}

/// Whether a slot is stored into twice, or may be: else no store can be stored over.
pub fn may_store_over(accesses: &[Access]) -> bool {
    let mut stored: ArrayVec<u32, 32> = ArrayVec::new();
    for a in accesses {
        if let Access::Stores(slot) = *a {
            if may_have(&stored, slot) {
                return true;
            }
            add(&mut stored, slot);
        }
    }
    false
}
