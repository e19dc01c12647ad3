//! The code of an assembly text, with its data.

ghost use Rattle.std.specs.Prelude.{◌≡◌, ◌+◌, ◌<◌, ◌≤◌, ◌^◌, length, drop, [], IfOk};
ghost use Rattle.tta_ops.specs.Set.{stated};
ghost use Rattle.tta_code.specs.Legal.{IsLegalCode};
ghost use Rattle.tta_asm.specs.Assembly.{take_pieces, assembled_code, assembled};
ghost use Rattle.tta_asm.specs.Drafts.{draft_seen, Takes};
ghost use Rattle.tta_asm.specs.Init.{data_from, behind_data};
ghost use Rattle.tta_asm.specs.Labels.{labels_of};
ghost use Rattle.tta_asm.specs.Pieces.{pieces_of};
ghost use Rattle.tta_asm.specs.Refusals.{Answers};
ghost use Rattle.tta_code.specs.Legal.{IsLegalWhole};

use crate::draft::Draft;
use crate::init::take_data;
use crate::labels::{Label, collect_labels};
use crate::pieces::{Close, Pieces, PlacedWord};
use crate::refusal::AsmError;
use crate::table::NameTable;
use crate::target::Target;
use std::alloc::Global;
use tta_arch::Machine;
use tta_code::{Code, Datum, Whole};
use tta_connect::Net;
use tta_list::Items;
use tta_ops::UnitSet;
use tta_parse::Names;

/// Takes the pieces that are left, until a text is over. The first that is refused is reported.
/// After an `Err` the draft is of no more use.
fn take_rest<'t>(
    alloc: Global,
    target: &Target,
    labels: &Names<Label>,
    pieces: &mut Pieces<'t>,
    words: &mut Vec<PlacedWord<'t>>,
    draft: &mut Draft<'t>,
) -> Result<(), AsmError>
    requires { length (draft_seen draft.old).words + length pieces.old ≤ 2 ^ 24 + 2 }
    ensures { Takes (draft_seen draft.new) result
        (take_pieces (stated unit_meaning target.now.units.now) target.now.machine.now
        labels.now (draft_seen draft.old) pieces.old) }
{
    loop {
        let closed = pieces.next_piece(words)?;
        if draft.is_over(words.as_slice(), closed) {
            return Ok(());
        }
        draft.take_piece(alloc, target, labels, words.as_slice(), closed)?;
        // What the end of the text closes is the last piece.
        if let Close::End = closed.close {
            return Ok(());
        }
    }
}

/// The code of a text after so many pieces, which has these labels, or its first refusal.
fn code_over(
    alloc: Global,
    text: &[u8],
    count: usize,
    target: &Target,
    labels: &Names<Label>,
) -> Result<Code, AsmError>
    requires small { length text.now ≤ 2 ^ 24 }
    requires few { count < length (pieces_of text.now) }
    requires labels { labels.now ≡ labels_of (drop count (pieces_of text.now)) }
    ensures answers { Answers result (assembled_code (stated unit_meaning target.now.units.now)
        target.now.machine.now (drop count (pieces_of text.now))) }
    ensures legal { IfOk result (λ code. IsLegalCode target.now.machine.now code) }
{
    let mut words = Vec::new(alloc);
    let mut pieces = Pieces::behind(text, count, &mut words)?;
    let mut draft = Draft::new(alloc);
    take_rest(alloc, target, labels, &mut pieces, &mut words, &mut draft)?;
    Ok(Code { words: draft.words })
}

/// The code of a text after so many pieces, or its first refusal.
fn code_of(alloc: Global, text: &[u8], count: usize, target: &Target) -> Result<Code, AsmError>
    requires small { length text.now ≤ 2 ^ 24 }
    requires few { count < length (pieces_of text.now) }
    requires behind { drop count (pieces_of text.now) ≡ behind_data (pieces_of text.now) }
    ensures answers { Answers result (assembled_code (stated unit_meaning target.now.units.now)
        target.now.machine.now (behind_data (pieces_of text.now))) }
    ensures legal { IfOk result (λ code. IsLegalCode target.now.machine.now code) }
{
    let labels = collect_labels(alloc, text, count)?;
    code_over(alloc, text, count, target, &labels)
}

/// The data that a text begins with, or the refusal of its first declaration that is refused.
fn data_of(alloc: Global, text: &[u8], m: &Machine) -> Result<Items<Datum>, AsmError>
    requires { length text.now ≤ 2 ^ 24 }
    ensures answers { Answers result (data_from m.now.data_words 0 [] (pieces_of text.now)) }
    ensures few { IfOk result (λ init. length init < length (pieces_of text.now)) }
{
    let mut words = Vec::new(alloc);
    let mut pieces = Pieces::new(text);
    let mut init = Items::new(alloc);
    take_data(m.data_words, &mut pieces, &mut words, &mut init)?;
    Ok(init)
}

/// The code of a text with its data, or its first refusal.
#[tactic(auto, unfolding(crate::specs::Assembly::assembled))]
fn whole_of(alloc: Global, text: &[u8], target: &Target) -> Result<Whole, AsmError>
    requires { length text.now ≤ 2 ^ 24 }
    ensures answers { Answers result
        (assembled (stated unit_meaning target.now.units.now) target.now.machine.now text.now) }
    ensures legal { IfOk result (λ whole. IsLegalWhole target.now.machine.now whole) }
{
    let init = data_of(alloc, text, target.machine)?;
    let code = code_of(alloc, text, init.len(), target)?;
    Ok(Whole { code, init })
}

/// The code of an assembly text of at most 2^24 bytes with its data, over these operation units.
/// The machine can carry it out.
///
/// `Refused` says the first refusal of the text: datum by datum, then piece by piece, and for each
/// instruction by the number of its slots, then slot by slot, then by its long immediate, then as a
/// whole. Labels are collected before the pieces are taken, so a label may stand after its use.
pub fn assemble(alloc: Global, text: &[u8], m: &Machine, units: &UnitSet) -> Result<Whole, AsmError>
    requires { length text.now ≤ 2 ^ 24 }
    ensures answers { Answers result (assembled (stated unit_meaning units.now) m.now text.now) }
    ensures legal { IfOk result (λ whole. IsLegalWhole m.now whole) }
{
    let net = Net::of(alloc, m)?;
    let table = NameTable::of(alloc, m, units)?;
    let target = Target {
        units,
        machine: m,
        net: &net,
        table: &table,
    };
    whole_of(alloc, text, &target)
}
