//! The labels of an assembly text.

ghost use Rattle.std.specs.Prelude.{◌≡◌, ◌+◌, ◌^◌, ◌<◌, ◌≤◌, true, if◌then◌else◌, None};
ghost use Rattle.std.specs.Prelude.{length, drop, option_map, IfOk, OnOk};
ghost use Rattle.tta_asm.specs.LabelsSeen.{label_seen};
ghost use Rattle.tta_asm.specs.Labels as spec;
ghost use Rattle.tta_asm.specs.Pieces.{pieces_of};
ghost use Rattle.tta_asm.specs.Seen.{piece_seen};

use crate::pieces::{Close, Closed, Pieces, PlacedWord};
use std::alloc::{AllocError, Global};
use tta_parse::Names;

/// What a label stands for.
#[derive(Clone, Copy)]
pub struct Label {
    /// The number of instructions before it.
    pub address: u32,
    /// Where its name stands: the first byte, counted from 0.
    pub start: usize,
}

/// The name of a label, with its place: its line, counted from 1, and its first byte, counted from
/// 0.
#[derive(Clone, Copy)]
pub struct LabelWord<'t> {
    pub name: &'t [u8],
    pub line: u32,
    pub start: usize,
}

/// The label that a piece is, where one can stand: one name, which a colon closes.
pub fn label_of<'t>(
    may_begin: bool,
    words: &[PlacedWord<'t>],
    closed: Closed,
) -> Option<LabelWord<'t>>
    ensures { let piece = piece_seen words.now closed.close closed.line in
        option_map label_seen result ≡ (if may_begin then spec.label_of piece else None) }
{
    match (closed.close, words) {
        (Close::Colon, [word]) if may_begin => {
            let name = word.word.name()?;
            Some(LabelWord {
                name,
                line: word.line,
                start: word.start,
            })
        }
        _ => None,
    }
}

/// Adds a label before which so many instructions stand, unless one has its name. An `Err` is want
/// of memory.
fn add_label(
    alloc: Global,
    labels: &mut Names<Label>,
    address: u32,
    word: &LabelWord,
) -> Result<(), AllocError>
    ensures { OnOk result
        (labels.new ≡ spec.with_label labels.old address (label_seen word.now)) }
{
    if labels.get(word.name).is_some() {
        return Ok(());
    }
    let label = Label {
        address,
        start: word.start,
    };
    labels.add(alloc, word.name, label)
}

/// Adds the labels of the pieces that are left, the first of them at the begin of a text. An `Err`
/// means out of memory.
fn add_labels<'t>(
    alloc: Global,
    labels: &mut Names<Label>,
    pieces: &mut Pieces<'t>,
    words: &mut Vec<PlacedWord<'t>>,
) -> Result<(), AllocError>
    requires { length pieces.old ≤ 2 ^ 24 + 2 }
    ensures { OnOk result (labels.new ≡ spec.labels_from true 0 labels.old pieces.old) }
{
    let mut may_begin = true;
    let mut address = 0;
    loop {
        let closed = pieces.next_piece(words)?;
        if let Close::End = closed.close {
            return Ok(());
        }
        match label_of(may_begin, words.as_slice(), closed) {
            Some(word) => add_label(alloc, labels, address, &word)?,
            None => {
                may_begin = matches!(closed.close, Close::Semicolon);
                address += u32::from(may_begin);
            }
        }
    }
}

/// The labels of a text of at most 2^24 bytes after so many pieces, each with its address, which
/// counts from there. Of two with one name the first stands. An `Err` means out of memory.
#[tactic(auto, unfolding(crate::specs::Labels::labels_of))]
pub fn collect_labels(alloc: Global, text: &[u8], count: usize) -> Result<Names<Label>, AllocError>
    requires small { length text.now ≤ 2 ^ 24 }
    requires few { count < length (pieces_of text.now) }
    ensures { IfOk result (λ labels. labels ≡ spec.labels_of (drop count (pieces_of text.now))) }
{
    let mut words = Vec::new(alloc);
    let mut pieces = Pieces::behind(text, count, &mut words)?;
    let mut labels = Names::new(alloc);
    add_labels(alloc, &mut labels, &mut pieces, &mut words)?;
    Ok(labels)
}
