//! Where a jump or call goes.

ghost use Rattle.std.specs.Prelude.{◌≡◌, true};
ghost use Rattle.std.specs.Option.{option_map, option_map_or};
ghost use Rattle.tta_code.specs.Cycle.{effect_of};
ghost use Rattle.tta_check.specs.JumpTargets.{only_word, jump_target_of};
ghost use Rattle.tta_check.specs.Controls.{does};
ghost use Rattle.tta_check.specs.Going.{event_as};

use crate::packed::Packed;
use crate::point::{Event, Kind};
use crate::values::ValueSet;
use crate::write::{origin_of, words_of};
use tta_arch::Dest;
use tta_code::Move;

/// The word of some words, if they are not two.
fn only_word(values: ValueSet) -> Option<Option<u32>>
    ensures { result ≡ only_word values }
{
    match values {
        ValueSet::Nothing => Some(Some(0)),
        ValueSet::One(word) => Some(word),
        ValueSet::Two(_, _) => None,
    }
}

/// The word of the control move, if it has one alone.
pub fn jump_target_of(cells: &[Packed], control: Option<Move>) -> Option<Option<u32>>
    ensures { result ≡ jump_target_of cells.now (option_map effect_of control) }
{
    let Some(v) = control else {
        return Some(None);
    };
    match v.dst {
        Dest::Jump | Dest::Call => only_word(words_of(cells, origin_of(v.src))),
        _ => Some(None),
    }
}

/// What the control move makes control do where it acts, with this word.
pub fn event_of(word: Option<u32>, control: Option<Move>) -> Option<Event>
    ensures { option_map event_as result ≡ does word (option_map effect_of control) true }
{
    let Some(v) = control else {
        return None;
    };
    match v.dst {
        Dest::Jump => Some(Event {
            kind: Kind::Jumps,
            word: word_or_zero(word),
        }),
        Dest::Call => Some(Event {
            kind: Kind::Calls,
            word: word_or_zero(word),
        }),
        Dest::Halt => Some(Event {
            kind: Kind::Halts,
            word: 0,
        }),
        _ => None,
    }
}

/// A word, or 0 where it is not known.
fn word_or_zero(word: Option<u32>) -> u32
    ensures { result ≡ option_map_or (λ x. x) word 0 }
{
    match word {
        Some(w) => w,
        None => 0,
    }
}
