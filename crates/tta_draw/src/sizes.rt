//! How wide the columns of the picture of code are.

ghost use Rattle.std.specs.Prelude.{◌≡◌, ◌+◌, ◌*◌, ◌≤◌, length, IfOk};
ghost use Rattle.tta_ops.specs.Set.{stated};
ghost use Rattle.tta_draw.specs.CodeWidths.{wider_moves, wider_rows, wider_long, wider_longs};
ghost use Rattle.tta_draw.specs.CodeWidths.{wider_remarks, sizes_of, column_width, after_columns};
ghost use Rattle.tta_draw.specs.Widths.{text_width};
ghost use Rattle.tta_draw.specs.Written.{written_move};

use crate::machine_widths::wider_buses;
use crate::remark::Remark;
use crate::results::lanes_in;
use crate::widths::text_width;
use crate::written::{push_long, push_written};
use std::alloc::{AllocError, Global};
use tta_arch::{Machine, Unit};
use tta_code::{Instruction, Long, Move};
use tta_ops::UnitSet;

/// How wide the columns of remarks, of each bus, and of long immediates are.
#[derive(Clone, Copy, Debug, PartialEq, Eq)]
pub struct Sizes {
    pub remarks: u32,
    pub bus: u32,
    pub long: u32,
}

/// How wide a move is. What was in the text goes.
fn move_width(text: &mut Vec<u8>, units: &UnitSet, m: &Machine, v: Move) -> Result<u64, AllocError>
    ensures all { IfOk result (λ w. w
        ≡ text_width (length (written_move (stated unit_meaning units.now) m.now v))) }
    ensures few { IfOk result (λ w. w ≤ 7008) }
{
    text.clear();
    push_written(text, units, m, v)?;
    Ok(text_width(text.len()))
}

/// The widest of a width and of moves.
fn wider_moves(
    text: &mut Vec<u8>,
    units: &UnitSet,
    m: &Machine,
    width: u64,
    slots: &[Option<Move>],
) -> Result<u64, AllocError>
    requires { width ≤ 7008 }
    ensures all { IfOk result (λ w. w
        ≡ wider_moves (stated unit_meaning units.now) m.now width slots.now) }
    ensures few { IfOk result (λ w. w ≤ 7008) }
{
    let mut widest = width;
    for slot in slots {
        if let Some(v) = slot {
            widest = widest.max(move_width(text, units, m, *v)?);
        }
    }
    Ok(widest)
}

/// The widest of a width and of the moves of instructions.
fn wider_rows(
    text: &mut Vec<u8>,
    units: &UnitSet,
    m: &Machine,
    width: u64,
    words: &[Instruction],
) -> Result<u64, AllocError>
    requires { width ≤ 7008 }
    ensures all { IfOk result (λ w. w
        ≡ wider_rows (stated unit_meaning units.now) m.now width words.now) }
    ensures few { IfOk result (λ w. w ≤ 7008) }
{
    let mut widest = width;
    for i in words {
        widest = wider_moves(text, units, m, widest, i.moves.as_slice())?;
    }
    Ok(widest)
}

/// The widest of a width and of a long immediate, if there is one.
fn wider_long(
    text: &mut Vec<u8>,
    m: &Machine,
    width: u64,
    long: Option<Long>,
) -> Result<u64, AllocError>
    requires { width ≤ 7008 }
    ensures all { IfOk result (λ w. w ≡ wider_long m.now width long) }
    ensures few { IfOk result (λ w. w ≤ 7008) }
{
    let Some(l) = long else {
        return Ok(width);
    };
    text.clear();
    push_long(text, m, l)?;
    Ok(width.max(text_width(text.len())))
}

/// The widest of a width and of the long immediates of instructions.
fn wider_longs(
    text: &mut Vec<u8>,
    m: &Machine,
    width: u64,
    words: &[Instruction],
) -> Result<u64, AllocError>
    requires { width ≤ 7008 }
    ensures all { IfOk result (λ w. w ≡ wider_longs m.now width words.now) }
    ensures few { IfOk result (λ w. w ≤ 7008) }
{
    let mut widest = width;
    for i in words {
        widest = wider_long(text, m, widest, i.long)?;
    }
    Ok(widest)
}

/// The widest of a width and of remarks.
fn wider_remarks(width: u64, remarks: &[Remark]) -> u64
    requires { width ≤ 7008 }
    ensures all { result ≡ wider_remarks width remarks.now }
    ensures few { result ≤ 7008 }
{
    let mut widest = width;
    for r in remarks {
        widest = widest.max(text_width(r.text.as_bytes().len()));
    }
    widest
}

/// How wide the columns are in which all has room that stands in them.
pub fn sizes_of(
    alloc: Global,
    units: &UnitSet,
    m: &Machine,
    words: &[Instruction],
    remarks: &[Remark],
) -> Result<Sizes, AllocError>
    ensures { IfOk result (λ s. s
        ≡ sizes_of (stated unit_meaning units.now) m.now words.now remarks.now) }
{
    let mut text = Vec::new(alloc);
    let names = wider_buses(60, m.buses.as_slice());
    let bus = wider_rows(&mut text, units, m, names, words)?;
    let long = wider_longs(&mut text, m, 106, words)?;
    Ok(Sizes {
        remarks: wider_remarks(0, remarks) as u32,
        bus: bus as u32,
        long: long as u32,
    })
}

/// How wide the column of a unit is.
pub fn column_width(u: &Unit) -> u64
    ensures all { result ≡ column_width u.now }
    ensures few { result ≤ 7008 }
    ensures wide { 8 ≤ result }
{
    let lanes = 8 * u64::from(lanes_in(u)) + 8;
    text_width(u.name.as_bytes().len()).max(lanes)
}

/// How far to the right the next column begins after those of units, the first of which begins so.
pub fn after_columns(left: u64, units: &[Unit]) -> u64
    requires left { left ≤ 1000000000000 }
    requires few { length units.now ≤ 32 }
    ensures all { result ≡ after_columns left units.now }
    ensures few { result ≤ left + 7016 * length units.now }
{
    let mut next = left;
    for u in units {
        next += column_width(u) + 8;
    }
    next
}
