//! Whole pieces: a slot, and a long immediate after it.

ghost use Rattle.std.specs.Prelude.{◌≡◌, map, option_map};
ghost use Rattle.tta_asm.specs.Seen.{placed_seen, slot_seen, long_seen, form_seen, piece_seen};
ghost use Rattle.tta_asm.specs.Syntax as spec;
ghost use Rattle.tta_asm.specs.WordsRead.{reading_seen, result_seen};

use super::moves::move_form;
use super::read::{Read, begins_with, behind_first, behind_mark, line_of, name_before, next_value};
use crate::forms::{LongForm, PieceForm, SlotForm};
use crate::pieces::{Close, PlacedWord};

/// A slot: `...` for none, or a move.
#[tactic(auto, unfolding(crate::specs::Syntax::slot_form))]
fn slot_form<'w, 't>(
    end: u32,
    words: &'w [PlacedWord<'t>],
) -> Result<Read<'w, 't, SlotForm<'t>>, u32>
    ensures { reading_seen slot_seen result ≡ spec.slot_form end (map placed_seen words.now) }
{
    let line = line_of(end, words);
    if begins_with(b"...", words) {
        return Ok(Read {
            value: SlotForm { line, action: None },
            rest: behind_first(words),
        });
    }
    match move_form(end, words) {
        Ok(action) => Ok(Read {
            value: SlotForm {
                line,
                action: Some(action.value),
            },
            rest: action.rest,
        }),
        Err(refused) => Err(refused),
    }
}

/// A long immediate after its `[`, which stands on this line.
fn long_behind<'w, 't>(
    line: u32,
    end: u32,
    words: &'w [PlacedWord<'t>],
) -> Result<Read<'w, 't, Option<LongForm<'t>>>, u32>
    ensures { reading_seen (λ l. option_map long_seen l) result
        ≡ spec.long_behind line end (map placed_seen words.now) }
{
    let template = name_before(b"=", end, words)?;
    let value = next_value(end, template.rest)?;
    match behind_mark(b"]", end, value.rest) {
        Ok(rest) => Ok(Read {
            value: Some(LongForm {
                line,
                template: template.value,
                value: value.value,
            }),
            rest,
        }),
        Err(line) => Err(line),
    }
}

/// A long immediate, or none.
#[tactic(auto, unfolding(crate::specs::Syntax::long_form))]
fn long_form<'w, 't>(
    end: u32,
    words: &'w [PlacedWord<'t>],
) -> Result<Read<'w, 't, Option<LongForm<'t>>>, u32>
    ensures { reading_seen (λ l. option_map long_seen l) result
        ≡ spec.long_form end (map placed_seen words.now) }
{
    if begins_with(b"[", words) {
        long_behind(line_of(end, words), end, behind_first(words))
    } else {
        Ok(Read {
            value: None,
            rest: words,
        })
    }
}

/// Whether a piece may be closed so: with a comma where it has no long immediate, and with a
/// semicolon always.
fn may_close(close: Close, long: &Option<LongForm>) -> bool
    ensures { result ≡ spec.may_close close (option_map long_seen long.now) }
{
    match close {
        Close::Semicolon => true,
        Close::Comma => long.is_none(),
        Close::Colon | Close::End => false,
    }
}

/// What a piece of an instruction says. An `Err` is the line of the first word that does not fit,
/// or that of what closes the piece where a word is missing, or where that may not close it.
#[tactic(auto, unfolding(crate::specs::Syntax::piece_form))]
pub fn piece_form<'t>(
    words: &[PlacedWord<'t>],
    close: Close,
    line: u32,
) -> Result<PieceForm<'t>, u32>
    ensures { result_seen form_seen result ≡ spec.piece_form (piece_seen words.now close line) }
{
    let slot = slot_form(line, words)?;
    let long = long_form(line, slot.rest)?;
    if let [first, ..] = long.rest {
        return Err(first.line);
    }
    if !may_close(close, &long.value) {
        return Err(line);
    }
    Ok(PieceForm {
        slot: slot.value,
        long: long.value,
    })
}
