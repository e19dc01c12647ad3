//! The rows of the picture of code.

ghost use Rattle.std.specs.Prelude.{◌≡◌, ◌+◌, ◌≤◌, ◌++◌, [], if◌then◌else◌, codes, length};
ghost use Rattle.std.specs.Prelude.{slice_get};
ghost use Rattle.std.specs.Prelude.{OnOk, All};
ghost use Rattle.std.specs.Option.{option_map_or};
ghost use Rattle.tta_ops.specs.Set.{stated};
ghost use Rattle.tta_arch.specs.Joins.{has_bit};
ghost use Rattle.tta_draw.specs.Svg.{box_text};
ghost use Rattle.tta_draw.specs.CodePlaces.{cell_frame, slot_frame};
ghost use Rattle.tta_draw.specs.DelaySlots.{is_delay_slot};
ghost use Rattle.tta_draw.specs.CodePicture.{cell_text, move_text, slot_text, cells_text, taken_text};
ghost use Rattle.tta_draw.specs.CodePicture.{long_cell_text, row_text, rows_text, grounds_text};

use crate::code_places::{ADDRESS_X, cell_frame, long_frame, row_spot, rule_frame, slot_frame};
use crate::colours::move_class;
use crate::delay_slots::is_delay_slot;
use crate::frame::{Frame, Spot};
use crate::sizes::Sizes;
use crate::svg::{end_label, push_box, push_count, start_label};
use crate::written::{push_long, push_written};
use std::alloc::AllocError;
use tta_arch::{Machine, has_bus};
use tta_code::{Instruction, Long, Move};
use tta_ops::UnitSet;

/// Where the text of a cell begins.
fn text_spot(cell: Frame) -> Spot
    requires x { cell.x ≤ 1000000000000 }
    requires y { cell.y ≤ 1000000000000 }
    ensures { result ≡ record { x = cell.x + 4; y = cell.y + 15 } }
{
    Spot {
        x: cell.x + 4,
        y: cell.y + 15,
    }
}

/// Puts a move in its cell, with its guard.
#[tactic(auto, unfolding(crate::specs::CodePicture::cell_text))]
fn push_move(
    out: &mut Vec<u8>,
    units: &UnitSet,
    m: &Machine,
    cell: Frame,
    v: Move,
) -> Result<(), AllocError>
    requires x { cell.x ≤ 1000000000000 }
    requires y { cell.y ≤ 1000000000000 }
    ensures { OnOk result (out.new.items ≡ out.old.items
        ++ move_text (stated unit_meaning units.now) m.now cell v) }
{
    push_box(out, move_class(v.dst), cell)?;
    start_label(out, b"line", text_spot(cell))?;
    push_written(out, units, m, v)?;
    end_label(out)
}

/// A row of the picture, in columns of these sizes.
#[derive(Clone, Copy, Debug, PartialEq, Eq)]
struct Row {
    sizes: Sizes,
    row: u32,
}

/// Puts the cell of a bus, if it has a move.
fn push_cell(
    out: &mut Vec<u8>,
    units: &UnitSet,
    m: &Machine,
    at: Row,
    bus: usize,
    slot: Option<Move>,
) -> Result<(), AllocError>
    requires { bus ≤ 16 }
    ensures { OnOk result (out.new.items ≡ out.old.items
        ++ slot_text (stated unit_meaning units.now) m.now (cell_frame at.sizes at.row bus) slot) }
{
    match slot {
        Some(v) => push_move(out, units, m, cell_frame(at.sizes, at.row, bus), v),
        None => Ok(()),
    }
}

/// Puts the cells of the buses of a row, if they have moves.
fn push_cells(
    out: &mut Vec<u8>,
    units: &UnitSet,
    m: &Machine,
    at: Row,
    slots: &[Option<Move>],
) -> Result<(), AllocError>
    requires few { length slots.now ≤ 16 }
    ensures { OnOk result (out.new.items ≡ out.old.items
        ++ cells_text (stated unit_meaning units.now) m.now at.sizes at.row slots.now) }
{
    for (bus, slot) in slots.iter().enumerate() {
        push_cell(out, units, m, at, bus, *slot)?;
    }
    Ok(())
}

/// The buses that a long immediate takes.
fn taken_by(m: &Machine, long: Option<Long>) -> u16
    ensures { result ≡ option_map_or
        (λ l. option_map_or (λ t. t.buses) (slice_get m.now.templates l.template) 0) long 0 }
{
    let Some(l) = long else {
        return 0;
    };
    match m.templates.as_slice().get(usize::from(l.template)) {
        Some(t) => t.buses,
        None => 0,
    }
}

/// Puts the cell of a bus, if a set of buses has it.
fn push_taken(
    out: &mut Vec<u8>,
    sizes: Sizes,
    row: u32,
    buses: u16,
    bus: usize,
) -> Result<(), AllocError>
    requires { bus ≤ 16 }
    ensures { OnOk result (out.new.items ≡ out.old.items
        ++ (if has_bit buses bus
        then box_text (codes "taken") (cell_frame sizes row bus) else [])) }
{
    if has_bus(buses, bus) {
        return push_box(out, b"taken", cell_frame(sizes, row, bus));
    }
    Ok(())
}

/// Puts the cells of the buses that a long immediate takes.
fn push_all_taken(
    out: &mut Vec<u8>,
    m: &Machine,
    sizes: Sizes,
    row: u32,
    buses: u16,
) -> Result<(), AllocError>
    ensures { OnOk result (out.new.items ≡ out.old.items ++ taken_text m.now sizes row buses) }
{
    for bus in 0..m.buses.len() {
        push_taken(out, sizes, row, buses, bus)?;
    }
    Ok(())
}

/// Puts a long immediate, if there is one.
#[tactic(auto, unfolding(crate::specs::CodePicture::cell_text))]
fn push_long_cell(
    out: &mut Vec<u8>,
    m: &Machine,
    sizes: Sizes,
    row: u32,
    long: Option<Long>,
) -> Result<(), AllocError>
    ensures { OnOk result (out.new.items ≡ out.old.items ++ long_cell_text m.now sizes row long) }
{
    let Some(l) = long else {
        return Ok(());
    };
    let cell = long_frame(m, sizes, row);
    push_box(out, b"long", cell)?;
    start_label(out, b"line", text_spot(cell))?;
    push_long(out, m, l)?;
    end_label(out)
}

/// Puts a row: its address, the buses that a long immediate takes, the long immediate, and the moves.
#[tactic(auto, unfolding(crate::specs::CodePicture::row_text))]
fn push_row(
    out: &mut Vec<u8>,
    units: &UnitSet,
    m: &Machine,
    sizes: Sizes,
    row: u32,
    i: &Instruction,
) -> Result<(), AllocError>
    requires few { length i.now.moves ≤ 16 }
    ensures { OnOk result (out.new.items ≡ out.old.items
        ++ row_text (stated unit_meaning units.now) m.now sizes row i.now) }
{
    push_box(out, b"row", rule_frame(m, sizes, row))?;
    push_count(out, b"note", row_spot(ADDRESS_X, row), b"", u64::from(row))?;
    push_all_taken(out, m, sizes, row, taken_by(m, i.long))?;
    push_long_cell(out, m, sizes, row, i.long)?;
    push_cells(out, units, m, Row { sizes, row }, i.moves.as_slice())
}

/// Puts rows, the first of them that of address 0.
pub fn push_rows(
    out: &mut Vec<u8>,
    units: &UnitSet,
    m: &Machine,
    sizes: Sizes,
    words: &[Instruction],
) -> Result<(), AllocError>
    requires few { length words.now ≤ 65536 }
    requires slots { All (λ i. length i.moves ≤ 16) words.now }
    ensures { OnOk result (out.new.items ≡ out.old.items
        ++ rows_text (stated unit_meaning units.now) m.now sizes words.now) }
{
    for (row, i) in words.iter().enumerate() {
        push_row(out, units, m, sizes, row as u32, i)?;
    }
    Ok(())
}

/// Puts the ground of a row, if it is a delay slot.
fn push_ground(
    out: &mut Vec<u8>,
    m: &Machine,
    sizes: Sizes,
    words: &[Instruction],
    row: usize,
) -> Result<(), AllocError>
    requires few { length words.now ≤ 65536 }
    requires row { row ≤ length words.now }
    ensures { OnOk result (out.new.items ≡ out.old.items
        ++ (if is_delay_slot m.now words.now row
        then box_text (codes "slot") (slot_frame m.now sizes row) else [])) }
{
    if is_delay_slot(m, words, row) {
        return push_box(out, b"slot", slot_frame(m, sizes, row as u32));
    }
    Ok(())
}

/// Puts the grounds of the rows that are delay slots.
pub fn push_grounds(
    out: &mut Vec<u8>,
    m: &Machine,
    sizes: Sizes,
    words: &[Instruction],
) -> Result<(), AllocError>
    requires { length words.now ≤ 65536 }
    ensures { OnOk result (out.new.items ≡ out.old.items ++ grounds_text m.now sizes words.now) }
{
    for row in 0..words.len() {
        push_ground(out, m, sizes, words, row)?;
    }
    Ok(())
}
