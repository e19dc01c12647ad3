//! Single words of a piece.

ghost use Rattle.std.specs.Prelude.{◌≡◌, map, drop, option_map};
ghost use Rattle.tta_parse.specs.Lines.{plain};
ghost use Rattle.tta_parse.specs.Words.{name_of, value_of, constant_of};
ghost use Rattle.tta_asm.specs.Seen.{placed_seen, value_seen};
ghost use Rattle.tta_asm.specs.Syntax as spec;
ghost use Rattle.tta_asm.specs.WordsRead.{name_before, reading_seen, result_seen};

use crate::forms::ValueForm;
use crate::pieces::PlacedWord;
use tta_parse::Word;

/// What was read, with the words after it.
#[derive(Clone, Copy)]
pub struct Read<'w, 't, T> {
    pub value: T,
    pub rest: &'w [PlacedWord<'t>],
}

/// The next word, where it is a name.
pub fn next_name<'w, 't>(
    end: u32,
    words: &'w [PlacedWord<'t>],
) -> Result<Read<'w, 't, &'t [u8]>, u32>
    ensures { reading_seen (λ n. n.now) result
        ≡ spec.next_word name_of end (map placed_seen words.now) }
{
    match words {
        [] => Err(end),
        [first, rest @ ..] => match first.word.name() {
            Some(value) => Ok(Read { value, rest }),
            None => Err(first.line),
        },
    }
}

/// The next word, where it is a name, with the words after the mark that has to follow it.
pub fn name_before<'w, 't>(
    mark: &[u8],
    end: u32,
    words: &'w [PlacedWord<'t>],
) -> Result<Read<'w, 't, &'t [u8]>, u32>
    ensures { reading_seen (λ n. n.now) result
        ≡ name_before mark.now end (map placed_seen words.now) }
{
    let name = next_name(end, words)?;
    match behind_mark(mark, end, name.rest) {
        Ok(rest) => Ok(Read {
            value: name.value,
            rest,
        }),
        Err(line) => Err(line),
    }
}

/// The value of the next word, where it is a number.
pub fn next_number<'w, 't>(end: u32, words: &'w [PlacedWord<'t>]) -> Result<Read<'w, 't, u32>, u32>
    ensures { reading_seen (λ n. n) result
        ≡ spec.next_word value_of end (map placed_seen words.now) }
{
    match words {
        [] => Err(end),
        [first, rest @ ..] => match first.word.value() {
            Some(value) => Ok(Read { value, rest }),
            None => Err(first.line),
        },
    }
}

/// The value of the next word, where it is a constant.
pub fn next_constant<'w, 't>(
    end: u32,
    words: &'w [PlacedWord<'t>],
) -> Result<Read<'w, 't, u32>, u32>
    ensures { reading_seen (λ n. n) result
        ≡ spec.next_word constant_of end (map placed_seen words.now) }
{
    match words {
        [] => Err(end),
        [first, rest @ ..] => match first.word.constant() {
            Some(value) => Ok(Read { value, rest }),
            None => Err(first.line),
        },
    }
}

/// A word as it is given: a constant, or the name of a label; `None` for any other word.
fn value_form<'t>(word: &Word<'t>) -> Option<ValueForm<'t>>
    ensures { option_map value_seen result ≡ spec.value_form (plain word.now) }
{
    match word.name() {
        Some(name) => Some(ValueForm::Label(name)),
        None => match word.constant() {
            Some(value) => Some(ValueForm::Constant(value)),
            None => None,
        },
    }
}

/// The next word, where it is a constant or a name.
pub fn next_value<'w, 't>(
    end: u32,
    words: &'w [PlacedWord<'t>],
) -> Result<Read<'w, 't, ValueForm<'t>>, u32>
    ensures { reading_seen value_seen result
        ≡ spec.next_word spec.value_form end (map placed_seen words.now) }
{
    match words {
        [] => Err(end),
        [first, rest @ ..] => match value_form(&first.word) {
            Some(value) => Ok(Read { value, rest }),
            None => Err(first.line),
        },
    }
}

/// The words after a certain mark.
pub fn behind_mark<'w, 't>(
    mark: &[u8],
    end: u32,
    words: &'w [PlacedWord<'t>],
) -> Result<&'w [PlacedWord<'t>], u32>
    ensures { result_seen (λ ws. map placed_seen ws.now) result
        ≡ spec.behind_mark mark.now end (map placed_seen words.now) }
{
    match words {
        [] => Err(end),
        [first, rest @ ..] => {
            if first.word.is_mark(mark) {
                Ok(rest)
            } else {
                Err(first.line)
            }
        }
    }
}

/// Whether a certain mark comes next.
pub fn begins_with(mark: &[u8], words: &[PlacedWord]) -> bool
    ensures { result ≡ spec.begins_with mark.now (map placed_seen words.now) }
{
    match words {
        [] => false,
        [first, ..] => first.word.is_mark(mark),
    }
}

/// Whether a certain word of the language comes next.
pub fn begins_with_word(keyword: &[u8], words: &[PlacedWord]) -> bool
    ensures { result ≡ spec.begins_with_word keyword.now (map placed_seen words.now) }
{
    match words {
        [] => false,
        [first, ..] => first.word.is_keyword(keyword),
    }
}

/// The line of the next word, and that of what closes the piece where no word is left.
pub fn line_of(end: u32, words: &[PlacedWord]) -> u32
    ensures { result ≡ spec.line_of end (map placed_seen words.now) }
{
    match words {
        [] => end,
        [first, ..] => first.line,
    }
}

/// The words after the first, and none where there is none.
pub fn behind_first<'w, 't>(words: &'w [PlacedWord<'t>]) -> &'w [PlacedWord<'t>]
    ensures { map placed_seen result.now ≡ drop 1 (map placed_seen words.now) }
{
    match words {
        [] => words,
        [_, rest @ ..] => rest,
    }
}
