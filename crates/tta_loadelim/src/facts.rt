//! Facts: which sources have the words of which slots.

ghost use Rattle.std.specs.Prelude.{◌≡◌, List, true};
ghost use Rattle.tta_moves.specs.Forms.{same_end};
ghost use Rattle.tta_loadelim.specs.declared.facts.Fact.{Fact};
ghost use Rattle.tta_loadelim.specs.AvailableSlots.{fact};
ghost use Rattle.tta_loadelim.specs.Facts.{is_among, are_among};

use arrayvec::ArrayVec;
use tta_arch::Source;

/// That a source has the word of a frame slot.
#[derive(Clone, Copy)]
pub struct Fact {
    pub slot: u32,
    pub from: Source,
}

impl Default for Fact {
    fn default() -> Fact {
        Fact {
            slot: 0,
            from: Source::Ra,
        }
    }
}

/// Whether two sources are one.
pub fn same_end(a: Source, b: Source) -> bool
    ensures { result ≡ same_end a b }
{
    match a {
        Source::Reg { file, index } => match b {
            Source::Reg { file: f, index: i } => file == f && index == i,
            _ => false,
        },
        Source::Imm { unit, index } => match b {
            Source::Imm { unit: u, index: i } => unit == u && index == i,
            _ => false,
        },
        Source::Shown { unit } => match b {
            Source::Shown { unit: u } => unit == u,
            _ => false,
        },
        Source::Ra => matches!(b, Source::Ra),
        Source::Value(word) => match b {
            Source::Value(w) => word == w,
            _ => false,
        },
    }
}

/// Adds a fact, where there is room.
pub fn note(facts: &mut ArrayVec<Fact, 16>, slot: u32, src: Source)
    ensures { (all : List Fact) → are_among all facts.old.items ≡ true
        → is_among all (fact slot src) ≡ true → are_among all facts.new.items ≡ true }
{
    if !facts.is_full() {
        facts.push(Fact { slot, from: src });
    }
}
