//! Which slots the items of a list load and store.

ghost use Rattle.std.specs.Prelude.{◌≡◌, List, option_and_then, Some, IfSome, ◌∷◌};
ghost use Rattle.tta_arch.specs.Machine.{Machine};
ghost use Rattle.tta_moves.specs.declared.items.Item.{Item};
ghost use Rattle.tta_moves.specs.Touches.{target_of_item};
ghost use Rattle.tta_moves.specs.Forms.{sure_source};
ghost use Rattle.tta_loadelim.specs.AvailableSlots.{loaded, stored, word_of, port_of, unit_of};
ghost use Rattle.tta_loadelim.specs.Facts.{IsOperand, StoresBy};

use std::alloc::{AllocError, Global};
use tta_arch::{Dest, Machine, Op, Source};
use tta_moves::parts::{is_unguarded, sure_source};
use tta_moves::{Item, ItemSource};
use tta_reorder::operations::{operand_number, started, stores_frame};

/// What an item does with the frame.
#[derive(Clone, Copy)]
pub enum Access {
    /// It leaves the frame alone.
    Nothing,
    /// It loads a slot.
    Loads(u32),
    /// It stores into a slot.
    Stores(u32),
    /// It stores into some slot, or takes input.
    Unknown,
}

/// The word that an item moves in any case, if it is one.
pub fn sure_word(x: Item) -> Option<u32>
    ensures { result ≡ option_and_then word_of (sure_source x) }
{
    match sure_source(x) {
        Some(ItemSource::Port(Source::Value(word))) => Some(word),
        _ => None,
    }
}

/// The source that an item reads in any case, where it is no address.
pub fn sure_port(x: Item) -> Option<Source>
    ensures { result ≡ option_and_then port_of (sure_source x) }
{
    match sure_source(x) {
        Some(ItemSource::Port(src)) => Some(src),
        _ => None,
    }
}

/// The slot that an item loads in any case.
pub fn loaded(m: &Machine, x: Item) -> Option<u32>
    ensures { result ≡ loaded m.now x }
{
    match started(m, x) {
        Some(Op::Ldf) => sure_word(x),
        _ => None,
    }
}

/// The unit whose operand port was written last, and the word that was moved there in any case.
#[derive(Clone, Copy)]
pub struct Operand {
    pub unit: u8,
    pub word: Option<u32>,
}

/// The operand after an item.
pub fn operand_after(last: Option<Operand>, x: Item) -> Option<Operand>
    ensures { (m : Machine) (before : List Item) → IsOperand m before last
        → IsOperand m (x ∷ before) result }
{
    match x {
        Item::Move {
            dst: Dest::Operand { unit },
            ..
        } => Some(Operand {
            unit,
            word: sure_word(x),
        }),
        _ => last,
    }
}

/// The unit whose trigger port an item moves into.
pub fn unit_of(x: Item) -> Option<u8>
    ensures { result ≡ unit_of (target_of_item x) }
{
    match x {
        Item::Move { dst, .. } => match dst {
            Dest::Trigger { unit, .. } => Some(unit),
            _ => None,
        },
        Item::Long { .. } => None,
    }
}

/// The unit whose store an item starts in any case.
fn storing_unit(m: &Machine, x: Item) -> Option<u8>
    ensures { IfSome result (λ unit. StoresBy m.now x unit) }
{
    if !stores_frame(m, x) {
        return None;
    }
    if !is_unguarded(x) {
        return None;
    }
    match operand_number(m, x) {
        None => None,
        Some(_) => unit_of(x),
    }
}

/// The slot that an item stores into in any case, where that is known.
pub fn stored(m: &Machine, last: Option<Operand>, x: Item) -> Option<u32>
    ensures { (before : List Item) → IsOperand m.now before last
        → IfSome result (λ slot. stored m.now before x ≡ Some slot) }
{
    let Some(unit) = storing_unit(m, x) else {
        return None;
    };
    let Some(operand) = last else {
        return None;
    };
    let Some(word) = operand.word else {
        return None;
    };
    if operand.unit != unit {
        return None;
    }
    if word < m.frame_words {
        Some(word)
    } else {
        None
    }
}

/// What an item does with the frame, after the operand that was moved last.
fn access_of(m: &Machine, last: Option<Operand>, x: Item) -> Access {
    if let Some(slot) = loaded(m, x) {
        return Access::Loads(slot);
    }
    if let Some(slot) = stored(m, last, x) {
        return Access::Stores(slot);
    }
    match started(m, x) {
        Some(Op::Stf | Op::Take) => Access::Unknown,
        _ => Access::Nothing,
    }
}

/// What each item of a list does with the frame. The only error is out of memory.
pub fn accesses(alloc: Global, m: &Machine, items: &[Item]) -> Result<Vec<Access>, AllocError> {
    let mut last = None;
    let mut all = Vec::with_capacity(alloc, items.len())?;
    for x in items {
        all.push(access_of(m, last, *x))?;
        last = operand_after(last, *x);
    }
    Ok(all)
}
