//! Destinations.

ghost use Rattle.std.specs.Prelude.{◌≡◌, map, option_map};
ghost use Rattle.tta_parse.specs.Lines.{plain};
ghost use Rattle.tta_asm.specs.Seen.{placed_seen, dest_seen};
ghost use Rattle.tta_asm.specs.Syntax as spec;
ghost use Rattle.tta_asm.specs.WordsRead.{reading_seen};

use super::read::{Read, begins_with_word, behind_first, behind_mark, name_before, next_name};
use crate::forms::DestForm;
use crate::pieces::PlacedWord;
use tta_parse::Word;

/// An operation after `UNIT.t`.
fn trigger_form<'w, 't>(
    unit: &'t [u8],
    end: u32,
    words: &'w [PlacedWord<'t>],
) -> Result<Read<'w, 't, DestForm<'t>>, u32>
    ensures { reading_seen dest_seen result
        ≡ spec.trigger_form unit.now end (map placed_seen words.now) }
{
    let rest = behind_mark(b".", end, words)?;
    match next_name(end, rest) {
        Ok(op) => Ok(Read {
            value: DestForm::Trigger { unit, op: op.value },
            rest: op.rest,
        }),
        Err(line) => Err(line),
    }
}

/// What may stand after the `.` of a destination, and is its last word: an index, or `o`.
fn dest_end<'t>(name: &'t [u8], word: &Word) -> Option<DestForm<'t>>
    ensures { option_map dest_seen result ≡ spec.dest_end name.now (plain word.now) }
{
    if word.is_keyword(b"o") {
        Some(DestForm::Operand { unit: name })
    } else {
        match word.value() {
            Some(index) => Some(DestForm::Place { name, index }),
            None => None,
        }
    }
}

/// The last word of a destination, after its `.`.
fn next_dest_end<'w, 't>(
    name: &'t [u8],
    end: u32,
    words: &'w [PlacedWord<'t>],
) -> Result<Read<'w, 't, DestForm<'t>>, u32>
    ensures { reading_seen dest_seen result
        ≡ spec.next_word (spec.dest_end name.now) end (map placed_seen words.now) }
{
    match words {
        [] => Err(end),
        [first, rest @ ..] => match dest_end(name, &first.word) {
            Some(value) => Ok(Read { value, rest }),
            None => Err(first.line),
        },
    }
}

/// A destination.
#[tactic(auto, unfolding(crate::specs::Syntax::dest_form))]
pub fn dest_form<'w, 't>(
    end: u32,
    words: &'w [PlacedWord<'t>],
) -> Result<Read<'w, 't, DestForm<'t>>, u32>
    ensures { reading_seen dest_seen result ≡ spec.dest_form end (map placed_seen words.now) }
{
    let name = name_before(b".", end, words)?;
    if begins_with_word(b"t", name.rest) {
        trigger_form(name.value, end, behind_first(name.rest))
    } else {
        next_dest_end(name.value, end, name.rest)
    }
}
