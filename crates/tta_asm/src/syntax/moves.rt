//! Moves with their guards.

ghost use Rattle.std.specs.Prelude.{◌≡◌, map, option_map};
ghost use Rattle.tta_parse.specs.Lines.{plain};
ghost use Rattle.tta_asm.specs.Seen.{placed_seen, guard_seen, move_seen};
ghost use Rattle.tta_asm.specs.Syntax as spec;
ghost use Rattle.tta_asm.specs.WordsRead.{reading_seen};

use super::dests::dest_form;
use super::read::{Read, behind_mark, name_before, next_number};
use super::sources::source_form;
use crate::forms::{GuardForm, MoveForm};
use crate::pieces::PlacedWord;
use tta_parse::Word;

/// Whether a word begins a guard, and then whether the guard is inverted.
fn sense_of(word: &Word) -> Option<bool>
    ensures { result ≡ spec.sense_of (plain word.now) }
{
    if word.is_mark(b"?") {
        Some(false)
    } else if word.is_mark(b"!") {
        Some(true)
    } else {
        None
    }
}

/// A guard after its first mark.
fn guard_register<'w, 't>(
    inverted: bool,
    end: u32,
    words: &'w [PlacedWord<'t>],
) -> Result<Read<'w, 't, Option<GuardForm<'t>>>, u32>
    ensures { reading_seen (λ g. option_map guard_seen g) result
        ≡ spec.guard_register inverted end (map placed_seen words.now) }
{
    let file = name_before(b".", end, words)?;
    match next_number(end, file.rest) {
        Ok(index) => Ok(Read {
            value: Some(GuardForm {
                file: file.value,
                index: index.value,
                inverted,
            }),
            rest: index.rest,
        }),
        Err(line) => Err(line),
    }
}

/// A guard, or none.
#[tactic(auto, unfolding(crate::specs::Syntax::guard_form))]
fn guard_form<'w, 't>(
    end: u32,
    words: &'w [PlacedWord<'t>],
) -> Result<Read<'w, 't, Option<GuardForm<'t>>>, u32>
    ensures { reading_seen (λ g. option_map guard_seen g) result
        ≡ spec.guard_form end (map placed_seen words.now) }
{
    if let [first, rest @ ..] = words {
        if let Some(inverted) = sense_of(&first.word) {
            return guard_register(inverted, end, rest);
        }
    }
    Ok(Read {
        value: None,
        rest: words,
    })
}

/// A move.
#[tactic(auto, unfolding(crate::specs::Syntax::move_form))]
pub fn move_form<'w, 't>(
    end: u32,
    words: &'w [PlacedWord<'t>],
) -> Result<Read<'w, 't, MoveForm<'t>>, u32>
    ensures { reading_seen move_seen result ≡ spec.move_form end (map placed_seen words.now) }
{
    let guard = guard_form(end, words)?;
    let src = source_form(end, guard.rest)?;
    let rest = behind_mark(b"->", end, src.rest)?;
    match dest_form(end, rest) {
        Ok(dst) => Ok(Read {
            value: MoveForm {
                guard: guard.value,
                src: src.value,
                dst: dst.value,
            },
            rest: dst.rest,
        }),
        Err(line) => Err(line),
    }
}
