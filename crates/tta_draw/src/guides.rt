//! The labels of rows, and the arrows from jumps to them.

ghost use Rattle.std.specs.Prelude.{◌≡◌, ◌≤◌, ◌++◌, [], if◌then◌else◌, false, length, slice_index_or};
ghost use Rattle.std.specs.Prelude.{OnOk};
ghost use Rattle.std.specs.List.{flat_map};
ghost use Rattle.tta_arch.specs.Fields.{numbers};
ghost use Rattle.tta_draw.specs.Targets.{arrows_of};
ghost use Rattle.tta_draw.specs.CodePicture.{label_row_text, labels_text, upright_text, arrow_text};
ghost use Rattle.tta_draw.specs.CodePicture.{arrows_text, guides_text};

use crate::code_places::{LABEL_X, level_frame, row_spot, tail_y, tip_y, upright_frame};
use crate::lanes::{labels_of, laid_in};
use crate::span::{Laid, Span};
use crate::svg::{push_box, push_count, push_tip};
use crate::targets::arrows_of;
use std::alloc::{AllocError, Global};
use tta_arch::Machine;
use tta_code::Instruction;

/// Puts the label of a row.
#[tactic(auto, unfolding(crate::specs::CodePicture::label_row_text))]
fn push_row_label(out: &mut Vec<u8>, row: u32) -> Result<(), AllocError>
    ensures { OnOk result (out.new.items ≡ out.old.items ++ label_row_text row) }
{
    push_count(out, b"title", row_spot(LABEL_X, row), b"L", u64::from(row))
}

/// Puts the label of a row, if it has one.
fn push_label_if(out: &mut Vec<u8>, row: usize, has_label: bool) -> Result<(), AllocError>
    requires { row ≤ 65536 }
    ensures { OnOk result (out.new.items ≡ out.old.items
        ++ (if has_label then label_row_text row else [])) }
{
    if has_label {
        return push_row_label(out, row as u32);
    }
    Ok(())
}

/// Puts the labels of the rows that have them.
fn push_all_labels(out: &mut Vec<u8>, labels: &[bool]) -> Result<(), AllocError>
    requires { length labels.now ≤ 65536 }
    ensures { OnOk result (out.new.items ≡ out.old.items ++ flat_map
        (λ row. if slice_index_or labels.now row false then label_row_text row else [])
        (numbers (length labels.now))) }
{
    for row in 0..labels.len() {
        push_label_if(out, row, labels[row])?;
    }
    Ok(())
}

/// Puts the labels of so many rows.
fn push_labels(
    out: &mut Vec<u8>,
    alloc: Global,
    spans: &[Span],
    rows: usize,
) -> Result<(), AllocError>
    requires { rows ≤ 65536 }
    ensures { OnOk result (out.new.items ≡ out.old.items ++ labels_text spans.now rows) }
{
    let labels = labels_of(alloc, rows, spans)?;
    push_all_labels(out, labels.as_slice())
}

/// Puts the upright line of an arrow.
fn push_upright(out: &mut Vec<u8>, a: Laid) -> Result<(), AllocError>
    ensures { OnOk result (out.new.items ≡ out.old.items
        ++ upright_text a.lane a.span.from a.span.to) }
{
    let tail = tail_y(a.span.from);
    let tip = tip_y(a.span.to);
    if a.span.to <= a.span.from {
        return push_box(out, b"arrow", upright_frame(a.lane, tip, tail));
    }
    push_box(out, b"arrow", upright_frame(a.lane, tail, tip))
}

/// Puts an arrow.
#[tactic(auto, unfolding(crate::specs::CodePicture::arrow_text))]
fn push_arrow(out: &mut Vec<u8>, a: Laid) -> Result<(), AllocError>
    ensures { OnOk result (out.new.items ≡ out.old.items ++ arrow_text a) }
{
    let tail = level_frame(a.lane, tail_y(a.span.from));
    push_box(out, b"arrow", tail)?;
    push_upright(out, a)?;
    let tip = tip_y(a.span.to);
    push_box(out, b"arrow", level_frame(a.lane, tip))?;
    push_tip(out, b"arrow", 76, tip + 1)
}

/// Puts arrows.
fn push_all_arrows(out: &mut Vec<u8>, arrows: &[Laid]) -> Result<(), AllocError>
    ensures { OnOk result (out.new.items ≡ out.old.items ++ flat_map arrow_text arrows.now) }
{
    for arrow in arrows {
        push_arrow(out, *arrow)?;
    }
    Ok(())
}

/// Puts arrows in eight lanes.
fn push_arrows(out: &mut Vec<u8>, alloc: Global, spans: &[Span]) -> Result<(), AllocError>
    ensures { OnOk result (out.new.items ≡ out.old.items ++ arrows_text spans.now) }
{
    let arrows = laid_in(alloc, 8, spans)?;
    push_all_arrows(out, arrows.as_slice())
}

/// Puts the labels of the rows that jumps lead to, and the arrows of the jumps.
pub fn push_guides(
    out: &mut Vec<u8>,
    alloc: Global,
    m: &Machine,
    words: &[Instruction],
) -> Result<(), AllocError>
    requires { length words.now ≤ 65536 }
    ensures { OnOk result (out.new.items ≡ out.old.items
        ++ guides_text (arrows_of m.now words.now) (length words.now)) }
{
    let spans = arrows_of(alloc, m, words)?;
    push_labels(out, alloc, spans.as_slice(), words.len())?;
    push_arrows(out, alloc, spans.as_slice())
}
