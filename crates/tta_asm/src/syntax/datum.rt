//! Declarations of data.

ghost use Rattle.std.specs.Prelude.{◌≡◌, map, IfOk};
ghost use Rattle.tta_asm.specs.declared.pieces.Close.TheVariants.{Semicolon};
ghost use Rattle.tta_asm.specs.Init as spec;
ghost use Rattle.tta_asm.specs.Seen.{placed_seen, piece_seen};
ghost use Rattle.tta_asm.specs.WordsRead.{result_seen};

use super::read::{behind_first, next_constant, next_number};
use crate::pieces::{Close, Closed, PlacedWord};
use tta_code::Datum;

/// Whether words begin a declaration of data: the word `data`, and directly after it a number.
pub fn begins_datum(words: &[PlacedWord]) -> bool
    ensures { result ≡ spec.begins_datum (map placed_seen words.now) }
{
    match words {
        [first, second, ..] => first.word.is_keyword(b"data") && second.word.value().is_some(),
        _ => false,
    }
}

/// The datum of a declaration. An `Err` is the line of the first word that does not fit, or that of
/// what closes the piece where a word is missing, or where that may not close it.
#[tactic(auto, unfolding(crate::specs::Init::datum_form))]
pub fn datum_form(words: &[PlacedWord], closed: Closed) -> Result<Datum, u32>
    ensures form { result_seen (λ d. d) result
        ≡ spec.datum_form (piece_seen words.now closed.close closed.line) }
    ensures closed { IfOk result (λ d. closed.close ≡ Semicolon) }
{
    let address = next_number(closed.line, behind_first(words))?;
    let value = next_constant(closed.line, address.rest)?;
    if let [first, ..] = value.rest {
        return Err(first.line);
    }
    match closed.close {
        Close::Semicolon => Ok(Datum {
            address: address.value,
            value: value.value,
        }),
        _ => Err(closed.line),
    }
}
