//! Sources.

ghost use Rattle.std.specs.Prelude.{◌≡◌, map, option_map};
ghost use Rattle.tta_parse.specs.Lines.{plain};
ghost use Rattle.tta_asm.specs.Seen.{placed_seen, value_seen, source_seen};
ghost use Rattle.tta_asm.specs.Syntax as spec;
ghost use Rattle.tta_asm.specs.WordsRead.{reading_seen};

use super::read::{Read, begins_with, behind_first, next_value};
use crate::forms::{SourceForm, ValueForm};
use crate::pieces::PlacedWord;
use tta_parse::Word;

/// What may stand after the `.` of a source: an index, `r`, or `ra` of control.
fn source_end<'t>(name: &'t [u8], word: &Word) -> Option<SourceForm<'t>>
    ensures { option_map source_seen result ≡ spec.source_end name.now (plain word.now) }
{
    if word.is_keyword(b"r") {
        Some(SourceForm::Shown { unit: name })
    } else if word.is_keyword(b"ra") && name == b"gcu".as_slice() {
        Some(SourceForm::Ra)
    } else {
        match word.value() {
            Some(index) => Some(SourceForm::Place { name, index }),
            None => None,
        }
    }
}

/// The last word of a source, after its `.`.
fn next_source_end<'w, 't>(
    name: &'t [u8],
    end: u32,
    words: &'w [PlacedWord<'t>],
) -> Result<Read<'w, 't, SourceForm<'t>>, u32>
    ensures { reading_seen source_seen result
        ≡ spec.next_word (spec.source_end name.now) end (map placed_seen words.now) }
{
    match words {
        [] => Err(end),
        [first, rest @ ..] => match source_end(name, &first.word) {
            Some(value) => Ok(Read { value, rest }),
            None => Err(first.line),
        },
    }
}

/// A source that is given by one word, unless a `.` follows the word and it is a name.
fn source_behind<'w, 't>(
    first: ValueForm<'t>,
    end: u32,
    words: &'w [PlacedWord<'t>],
) -> Result<Read<'w, 't, SourceForm<'t>>, u32>
    ensures { reading_seen source_seen result
        ≡ spec.source_behind (value_seen first.entry) end (map placed_seen words.now) }
{
    match first {
        ValueForm::Label(name) if begins_with(b".", words) => {
            next_source_end(name, end, behind_first(words))
        }
        _ => Ok(Read {
            value: SourceForm::Value(first),
            rest: words,
        }),
    }
}

/// A source.
#[tactic(auto, unfolding(crate::specs::Syntax::source_form))]
pub fn source_form<'w, 't>(
    end: u32,
    words: &'w [PlacedWord<'t>],
) -> Result<Read<'w, 't, SourceForm<'t>>, u32>
    ensures { reading_seen source_seen result
        ≡ spec.source_form end (map placed_seen words.now) }
{
    let first = next_value(end, words)?;
    source_behind(first.value, end, first.rest)
}
