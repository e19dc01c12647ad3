//! What is known of frame slots on the way down a list: which sources have whose words.

ghost use Rattle.std.specs.Prelude.{◌≡◌, List, [], true, false, filter, ◌∷◌, Some, IfSome};
ghost use Rattle.tta_arch.specs.Machine.{Machine};
ghost use Rattle.tta_arch.specs.declared.ends.Source.{Source};
ghost use Rattle.tta_moves.specs.declared.items.Item.{Item};
ghost use Rattle.tta_moves.specs.Touches.{target_of_item};
ghost use Rattle.tta_loadelim.specs.AvailableSlots as spec;
ghost use Rattle.tta_loadelim.specs.declared.facts.Fact.{Fact};
ghost use Rattle.tta_loadelim.specs.Facts.{are_among, Knows, IsChange};

use crate::accesses::{Operand, loaded, operand_after, stored, sure_port, unit_of};
use crate::facts::{Fact, note, same_end};
use arrayvec::ArrayVec;
use tta_arch::{Dest, GuardRef, Machine, Source};
use tta_connect::TargetMachine;
use tta_list::entry_at;
use tta_moves::numbers::{read_place, written_place};
use tta_moves::{Item, ItemSource, is_joined};
use tta_reorder::operations::stores_frame;

/// What is known after some items of a list.
#[derive(Drop)]
pub struct AvailableSlots {
    /// The operand port that was written last.
    pub operand: Option<Operand>,
    /// Slots, each with a source that has its word, the newest first.
    pub facts: ArrayVec<Fact, 16>,
    /// The last item.
    pub newest: Option<Item>,
}

/// What an item changes: the place that it may write, by its number, whether it stores into the
/// frame, and into which slot it does, where that is known.
#[derive(Clone, Copy)]
pub struct Change {
    pub written: Option<usize>,
    pub stores: bool,
    pub slot: Option<u32>,
}

/// Whether an item that changes this may write the place of a source.
fn spoils(c: Change, src: Source) -> bool
    ensures { (m : Machine) (before : List Item) (x : Item) → IsChange m before x c
        → result ≡ false → spec.spoils m x src ≡ false }
{
    match c.written {
        None => false,
        Some(n) => read_place(ItemSource::Port(src)) == Some(n),
    }
}

/// Whether an item that changes this leaves a fact as it is.
fn stays(c: Change, slot: u32, src: Source) -> bool
    ensures { (m : Machine) (before : List Item) (x : Item) → IsChange m before x c
        → result ≡ true → spec.stays m before x (spec.fact slot src) ≡ true }
{
    if spoils(c, src) {
        return false;
    }
    if !c.stores {
        return true;
    }
    match c.slot {
        None => false,
        Some(other) => other != slot,
    }
}

/// Whether an item moves into an operand port, which leaves each fact as it is.
fn is_operand(x: Item) -> bool
    ensures { (m : Machine) (before : List Item) (f : Fact) → result ≡ true
        → spec.stays m before x f ≡ true }
{
    match x {
        Item::Move { dst, .. } => matches!(dst, Dest::Operand { .. }),
        Item::Long { .. } => false,
    }
}

/// The register of whole words that an item writes, as a source.
fn register_in(m: &Machine, x: Item) -> Option<Source>
    ensures { IfSome result (λ reg. spec.register_in m.now (target_of_item x) ≡ Some reg) }
{
    let Item::Move {
        dst: Dest::Reg { file, index },
        ..
    } = x
    else {
        return None;
    };
    match entry_at(m.files.as_slice(), file) {
        Some(f) if f.width != 1 => Some(Source::Reg { file, index }),
        _ => None,
    }
}

/// The slot whose word a source has by a fact, if the fact is of the source.
fn slot_from(f: Fact, src: Source) -> Option<u32>
    ensures { IfSome result (λ slot. f ≡ spec.fact slot src) }
{
    if same_end(f.from, src) {
        Some(f.slot)
    } else {
        None
    }
}

/// Whether a source is worth reading in place of a load: an immediate register is not, since its
/// word may be joined to a destination itself.
fn is_kept(src: Source) -> bool {
    !matches!(src, Source::Imm { .. })
}

impl AvailableSlots {
    /// Nothing is known at the begin of a list.
    pub fn new() -> Self
        ensures { (m : Machine) → Knows m [] result }
    {
        AvailableSlots {
            operand: None,
            facts: ArrayVec::new(),
            newest: None,
        }
    }

    /// Adds what a load leaves.
    fn note_load(facts: &mut ArrayVec<Fact, 16>, m: &Machine, x: Item)
        ensures { (all : List Fact) → are_among all facts.old.items ≡ true
            → are_among all (spec.by_load m.now x) ≡ true → are_among all facts.new.items ≡ true }
    {
        let Some(slot) = loaded(m, x) else {
            return;
        };
        if let Some(unit) = unit_of(x) {
            note(facts, slot, Source::Shown { unit });
        }
    }

    /// The register that the item before has moved a source into as well.
    fn twin(&self, m: &Machine, src: Source) -> Option<Source>
        ensures { (before : List Item) → Knows m.now before self.now
            → IfSome result (λ reg. spec.twin m.now before src ≡ Some reg) }
    {
        let Some(w) = self.newest else {
            return None;
        };
        let Some(reg) = register_in(m, w) else {
            return None;
        };
        match sure_port(w) {
            None => None,
            Some(other) => {
                if same_end(other, src) {
                    Some(reg)
                } else {
                    None
                }
            }
        }
    }

    /// Adds what a store leaves.
    fn note_store(&self, facts: &mut ArrayVec<Fact, 16>, m: &Machine, x: Item)
        ensures { (before : List Item) (all : List Fact) → Knows m.now before self.now
            → are_among all facts.old.items ≡ true → are_among all (spec.by_twin m.now before x) ≡ true
            → are_among all (spec.by_store m.now before x) ≡ true
            → are_among all facts.new.items ≡ true }
    {
        let Some(slot) = stored(m, self.operand, x) else {
            return;
        };
        let Some(src) = sure_port(x) else {
            return;
        };
        if let Some(reg) = self.twin(m, src) {
            note(facts, slot, reg);
        }
        note(facts, slot, src);
    }

    /// What an item changes.
    fn change(&self, m: &Machine, x: Item) -> Change
        ensures { (before : List Item) → Knows m.now before self.now
            → IsChange m.now before x result }
    {
        Change {
            written: written_place(m, x),
            stores: stores_frame(m, x),
            slot: stored(m, self.operand, x),
        }
    }

    /// Adds what an item moves into a register.
    fn note_copies(&self, facts: &mut ArrayVec<Fact, 16>, m: &Machine, x: Item)
        ensures { (before : List Item) (all : List Fact) → Knows m.now before self.now
            → are_among all facts.old.items ≡ true
            → are_among all (spec.by_copy m.now (spec.known m.now before) x) ≡ true
            → are_among all facts.new.items ≡ true }
    {
        let Some(src) = sure_port(x) else {
            return;
        };
        let Some(reg) = register_in(m, x) else {
            return;
        };
        for f in self.facts.as_slice() {
            if !same_end(f.from, src) {
                continue;
            }
            note(facts, f.slot, reg);
        }
    }

    /// Adds what an item leaves as it is.
    fn note_rest(&self, facts: &mut ArrayVec<Fact, 16>, m: &Machine, x: Item)
        ensures { (before : List Item) (all : List Fact) → Knows m.now before self.now
            → are_among all facts.old.items ≡ true
            → are_among all (filter (spec.stays m.now before x) (spec.known m.now before)) ≡ true
            → are_among all facts.new.items ≡ true }
    {
        let c = self.change(m, x);
        for f in self.facts.as_slice() {
            if !stays(c, f.slot, f.from) {
                continue;
            }
            note(facts, f.slot, f.from);
        }
    }

    /// Goes past an item.
    pub fn pass(&mut self, m: &Machine, x: Item)
        ensures { (before : List Item) → Knows m.now before self.old
            → Knows m.now (x ∷ before) self.new }
    {
        if is_operand(x) {
            self.operand = operand_after(self.operand, x);
            self.newest = Some(x);
            return;
        }
        let mut facts = ArrayVec::new();
        AvailableSlots::note_load(&mut facts, m, x);
        self.note_store(&mut facts, m, x);
        self.note_copies(&mut facts, m, x);
        self.note_rest(&mut facts, m, x);
        self.operand = operand_after(self.operand, x);
        self.facts = facts;
        self.newest = Some(x);
    }

    /// The oldest source that is noted to have the word of the slot whose word another source has,
    /// of those that a bus joins to a destination.
    pub fn other(
        &self,
        on: &TargetMachine<'_>,
        src: Source,
        guard: Option<GuardRef>,
        dst: Dest,
    ) -> Option<Source>
        ensures { let m = on.now.machine.now in (before : List Item) → Knows m before self.now
            → IfSome result (λ b. spec.have_one (spec.known m before) src b ≡ true) }
    {
        let mut slot: Option<u32> = None;
        let mut oldest: Option<Source> = None;
        for f in self.facts.as_slice() {
            let Some(v) = slot else {
                slot = slot_from(*f, src);
                continue;
            };
            if f.slot != v {
                continue;
            }
            if !is_kept(f.from) {
                continue;
            }
            if !is_joined(on.machine, on.net, ItemSource::Port(f.from), dst, guard) {
                continue;
            }
            oldest = Some(f.from);
        }
        oldest
    }
}
