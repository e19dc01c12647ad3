//! Where the moves of code stand in its picture. All measures are pixels.

ghost use Rattle.std.specs.Prelude.{◌≡◌, ◌≤◌};
ghost use Rattle.tta_draw.specs.CodePlaces.{row_y, row_spot, column_x, cell_frame, long_x, long_frame};
ghost use Rattle.tta_draw.specs.CodePlaces.{columns_x, bar_x, bar_frame, due_y, name_spot};
ghost use Rattle.tta_draw.specs.CodePlaces.{colour_frame, code_width, code_height, rule_frame};
ghost use Rattle.tta_draw.specs.CodePlaces.{slot_frame, lane_x, tail_y, tip_y, level_frame};
ghost use Rattle.tta_draw.specs.CodePlaces.{upright_frame};

use crate::frame::{Frame, Spot};
use crate::sizes::{Sizes, after_columns};
use crate::span::Span;
use tta_arch::Machine;

/// How low a row begins, by the address of its instruction.
pub fn row_y(row: u32) -> u64
    ensures all { result ≡ row_y row }
    ensures few { result ≤ 110000000000 }
{
    208 + 24 * u64::from(row)
}

/// Where a text begins that stands in a row.
pub fn row_spot(x: u64, row: u32) -> Spot
    ensures { result ≡ row_spot x row }
{
    Spot {
        x,
        y: row_y(row) + 17,
    }
}

/// How far to the right the column of a bus begins.
pub fn column_x(s: Sizes, bus: usize) -> u64
    requires { bus ≤ 16 }
    ensures all { result ≡ column_x s bus }
    ensures wide { 170 ≤ result }
    ensures few { result ≤ 80000000000 }
{
    170 + u64::from(s.remarks) + (u64::from(s.bus) + 4) * bus as u64
}

/// The cell of a bus in a row.
pub fn cell_frame(s: Sizes, row: u32, bus: usize) -> Frame
    requires { bus ≤ 16 }
    ensures all { result ≡ cell_frame s row bus }
    ensures x { result.x ≤ 1000000000000 }
    ensures y { result.y ≤ 1000000000000 }
{
    Frame {
        x: column_x(s, bus),
        y: row_y(row) + 2,
        width: u64::from(s.bus),
        height: 20,
    }
}

/// The column of long immediates.
pub fn long_x(m: &Machine, s: Sizes) -> u64
    ensures all { result ≡ long_x m.now s }
    ensures wide { 170 ≤ result }
    ensures few { result ≤ 80000000000 }
{
    column_x(s, m.buses.len())
}

/// Its cell in a row.
pub fn long_frame(m: &Machine, s: Sizes, row: u32) -> Frame
    ensures all { result ≡ long_frame m.now s row }
    ensures x { result.x ≤ 1000000000000 }
    ensures y { result.y ≤ 1000000000000 }
{
    Frame {
        x: long_x(m, s),
        y: row_y(row) + 2,
        width: u64::from(s.long),
        height: 20,
    }
}

/// The column of the first unit.
pub fn columns_x(m: &Machine, s: Sizes) -> u64
    ensures all { result ≡ columns_x m.now s }
    ensures few { result ≤ 90000000000 }
{
    long_x(m, s) + u64::from(s.long) + 12
}

/// How far to the right a lane of the column of a unit stands.
pub fn bar_x(left: u64, lane: u8) -> u64
    requires { left ≤ 1000000000000 }
    ensures all { result ≡ bar_x left lane }
    ensures few { result ≤ 2000000000000 }
{
    left + 4 + 8 * u64::from(lane)
}

/// The bar of a result in a lane.
pub fn bar_frame(left: u64, lane: u8, s: Span) -> Frame
    requires { left ≤ 1000000000000 }
    ensures { result ≡ bar_frame left lane s }
{
    Frame {
        x: bar_x(left, lane),
        y: row_y(s.from) + 16,
        width: 4,
        height: 24 * u64::from(s.to.saturating_sub(s.from)) + 16,
    }
}

/// How low the dot is at the end of the bar.
pub fn due_y(s: Span) -> u64
    ensures { result ≡ due_y s }
{
    row_y(s.to) + 32
}

/// The name of a column.
pub fn name_spot(x: u64) -> Spot
    requires { x ≤ 1000000000000 }
    ensures { result ≡ name_spot x }
{
    Spot { x: x + 4, y: 190 }
}

/// The colour of a unit, under its name.
pub fn colour_frame(left: u64, width: u64) -> Frame
    requires left { left ≤ 1000000000000 }
    requires width { 8 ≤ width }
    ensures { result ≡ colour_frame left width }
{
    Frame {
        x: left + 4,
        y: 196,
        width: width - 8,
        height: 4,
    }
}

/// The width of the picture.
pub fn code_width(m: &Machine, s: Sizes) -> u64
    ensures all { result ≡ code_width m.now s }
    ensures wide { 920 ≤ result }
{
    920_u64.max(after_columns(columns_x(m, s), m.units.as_slice()))
}

/// The height of the picture of so many instructions.
pub fn code_height(rows: usize) -> u64
    requires { rows ≤ 65536 }
    ensures { result ≡ code_height rows }
{
    row_y(rows as u32) + 16
}

/// The line over a row.
pub fn rule_frame(m: &Machine, s: Sizes, row: u32) -> Frame
    ensures { result ≡ rule_frame m.now s row }
{
    Frame {
        x: 4,
        y: row_y(row),
        width: code_width(m, s) - 8,
        height: 1,
    }
}

/// The ground of a delay slot, from its address to the last bus.
pub fn slot_frame(m: &Machine, s: Sizes, row: u32) -> Frame
    ensures { result ≡ slot_frame m.now s row }
{
    Frame {
        x: 122,
        y: row_y(row) + 1,
        width: long_x(m, s) - 124,
        height: 23,
    }
}

/// How far to the right the labels of rows stand.
pub const LABEL_X: u64 = 82;

/// How far to the right the addresses of rows stand.
pub const ADDRESS_X: u64 = 130;

/// How far to the right the remarks on rows stand.
pub const REMARK_X: u64 = 174;

/// How far to the right a lane of arrows stands.
fn lane_x(lane: u8) -> u64
    ensures is { result ≡ lane_x lane }
    ensures few { result ≤ 58 }
{
    58_u64.saturating_sub(7 * u64::from(lane))
}

/// How low in its row an arrow begins.
pub fn tail_y(from: u32) -> u64
    ensures is { result ≡ tail_y from }
    ensures few { result ≤ 200000000000 }
{
    row_y(from) + 16
}

/// How low in its row an arrow ends.
pub fn tip_y(to: u32) -> u64
    ensures is { result ≡ tip_y to }
    ensures few { result ≤ 200000000000 }
{
    row_y(to) + 8
}

/// A level line of an arrow, between its lane and the labels.
pub fn level_frame(lane: u8, y: u64) -> Frame
    ensures { result ≡ level_frame lane y }
{
    Frame {
        x: lane_x(lane),
        y,
        width: 68 - lane_x(lane),
        height: 2,
    }
}

/// The upright line of an arrow in its lane, from its upper end to its lower.
pub fn upright_frame(lane: u8, upper: u64, lower: u64) -> Frame
    requires lower { upper ≤ lower }
    requires few { lower ≤ 200000000000 }
    ensures { result ≡ upright_frame lane upper lower }
{
    Frame {
        x: lane_x(lane),
        y: upper,
        width: 2,
        height: lower + 2 - upper,
    }
}
