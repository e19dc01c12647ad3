//! The columns of units, with the bars of their results.

ghost use Rattle.std.specs.Prelude.{◌≡◌, ◌≤◌, ◌++◌, length, OnOk};
ghost use Rattle.std.specs.List.{flat_map};
ghost use Rattle.tta_draw.specs.Results.{results_of, lanes_in};
ghost use Rattle.tta_draw.specs.Lanes.{laid_in};
ghost use Rattle.tta_draw.specs.CodePicture.{bar_text, column_text, columns_text};

use crate::code_places::{bar_frame, bar_x, colour_frame, due_y, name_spot};
use crate::colours::dark_class;
use crate::lanes::laid_in;
use crate::results::{lanes_in, results_of};
use crate::sizes::column_width;
use crate::span::Laid;
use crate::svg::{push_box, push_dot, push_label};
use std::alloc::{AllocError, Global};
use tta_arch::{Machine, Unit};
use tta_code::Instruction;

/// The column of a unit, by its number, and how far to the right it begins.
#[derive(Clone, Copy, Debug, PartialEq, Eq)]
struct Column {
    unit: u8,
    left: u64,
}

/// Puts the bar of a result of a unit, in its lane of the unit's column, with a dot where it shows.
#[tactic(auto, unfolding(crate::specs::CodePicture::bar_text))]
fn push_bar(out: &mut Vec<u8>, at: Column, l: Laid) -> Result<(), AllocError>
    requires { at.left ≤ 1000000000000 }
    ensures { OnOk result (out.new.items ≡ out.old.items ++ bar_text at.unit at.left l) }
{
    let class = dark_class(at.unit % 6);
    push_box(out, class, bar_frame(at.left, l.lane, l.span))?;
    push_dot(out, class, bar_x(at.left, l.lane) + 2, due_y(l.span))
}

/// Puts bars.
fn push_all_bars(out: &mut Vec<u8>, at: Column, laid: &[Laid]) -> Result<(), AllocError>
    requires { at.left ≤ 1000000000000 }
    ensures { OnOk result (out.new.items
        ≡ out.old.items ++ flat_map (bar_text at.unit at.left) laid.now) }
{
    for l in laid {
        push_bar(out, at, *l)?;
    }
    Ok(())
}

/// Puts the bars of the results of a unit.
fn push_bars(
    out: &mut Vec<u8>,
    alloc: Global,
    m: &Machine,
    words: &[Instruction],
    at: Column,
    u: &Unit,
) -> Result<(), AllocError>
    requires few { length words.now ≤ 65536 }
    requires left { at.left ≤ 1000000000000 }
    ensures { OnOk result (out.new.items ≡ out.old.items ++ flat_map (bar_text at.unit at.left)
        (laid_in (lanes_in u.now) (results_of m.now words.now at.unit))) }
{
    let results = results_of(alloc, m, words, at.unit)?;
    let laid = laid_in(alloc, lanes_in(u), results.as_slice())?;
    push_all_bars(out, at, laid.as_slice())
}

/// Puts the column of a unit: its name, its colour, and the bars of its results.
#[tactic(auto, unfolding(crate::specs::CodePicture::column_text))]
fn push_column(
    out: &mut Vec<u8>,
    alloc: Global,
    m: &Machine,
    words: &[Instruction],
    at: Column,
    u: &Unit,
) -> Result<(), AllocError>
    requires few { length words.now ≤ 65536 }
    requires left { at.left ≤ 1000000000000 }
    ensures { OnOk result (out.new.items
        ≡ out.old.items ++ column_text m.now words.now at.unit at.left u.now) }
{
    push_label(out, b"title", name_spot(at.left), u.name.as_bytes())?;
    let colour = colour_frame(at.left, column_width(u));
    push_box(out, dark_class(at.unit % 6), colour)?;
    push_bars(out, alloc, m, words, at, u)
}

/// Puts the columns of units, the first of which begins so far to the right.
pub fn push_columns(
    out: &mut Vec<u8>,
    alloc: Global,
    m: &Machine,
    words: &[Instruction],
    left: u64,
    units: &[Unit],
) -> Result<(), AllocError>
    requires few { length words.now ≤ 65536 }
    requires left { left ≤ 90000000000 }
    requires units { length units.now ≤ 32 }
    ensures { OnOk result (out.new.items
        ≡ out.old.items ++ columns_text m.now words.now 0 left units.now) }
{
    let mut at = Column { unit: 0, left };
    for u in units {
        push_column(out, alloc, m, words, at, u)?;
        at.left += column_width(u) + 8;
        at.unit += 1;
    }
    Ok(())
}
