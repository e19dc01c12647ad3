//! The data that an assembly text begins with.

ghost use Rattle.std.specs.Prelude.{◌≡◌, ◌+◌, ◌≤◌, ◌||◌, nat_lt, nat_le, length, IfOk, OnOk};
ghost use Rattle.tta_asm.specs.declared.pieces.Close.TheVariants.{Semicolon};
ghost use Rattle.tta_asm.specs.Init as spec;
ghost use Rattle.tta_asm.specs.Refusals.{Answers, AnswersAs};
ghost use Rattle.tta_asm.specs.Seen.{piece_seen};

use crate::pieces::{Closed, Pieces, PlacedWord};
use crate::refusal::{AsmError, AsmRefusal};
use crate::syntax::{begins_datum, datum_form, line_of};
use tta_code::Datum;
use tta_list::Items;

/// Whether an address is below the least one that may come, or not one of the data space.
fn is_out(address: u32, least: u64, space: u32) -> bool
    ensures { result ≡ (nat_lt address least || nat_le space address) }
{
    u64::from(address) < least || address >= space
}

/// The datum of a declaration in a data space of so many words. It is refused as `Data` where its
/// address is not one of these, or is below the least one that may come.
#[tactic(auto, unfolding(crate::specs::Init::datum_of))]
fn datum_of(space: u32, least: u64, words: &[PlacedWord], closed: Closed) -> Result<Datum, AsmError>
    ensures answers { Answers result
        (spec.datum_of space least (piece_seen words.now closed.close closed.line)) }
    ensures closed { IfOk result (λ d. closed.close ≡ Semicolon) }
{
    let datum = match datum_form(words, closed) {
        Ok(datum) => datum,
        Err(line) => return Err(AsmRefusal::Syntax.at(line)),
    };
    if is_out(datum.address, least, space) {
        return Err(AsmRefusal::Data.at(line_of(closed.line, words)));
    }
    Ok(datum)
}

/// Takes the declarations of data that pieces begin with, and the piece after them. The first that
/// is refused is reported. After an `Err` what was taken is of no more use.
pub fn take_data<'t>(
    space: u32,
    pieces: &mut Pieces<'t>,
    words: &mut Vec<PlacedWord<'t>>,
    init: &mut Items<Datum>,
) -> Result<(), AsmError>
    ensures takes { AnswersAs (λ _. init.new) result
        (spec.data_from space 0 init.old pieces.old) }
    ensures few { OnOk result (length init.new + 1 ≤ length init.old + length pieces.old) }
{
    let mut least: u64 = 0;
    loop {
        let closed = pieces.next_piece(words)?;
        if !begins_datum(words.as_slice()) {
            return Ok(());
        }
        let datum = datum_of(space, least, words.as_slice(), closed)?;
        least = u64::from(datum.address) + 1;
        init.push(datum)?;
    }
}
