//! Where the parts of a machine stand in its picture. All measures are pixels.

ghost use Rattle.std.specs.Prelude.{◌≡◌, ◌+◌, ◌≤◌, length, All};
ghost use Rattle.tta_ops.specs.Set.{stated};
ghost use Rattle.tta_draw.specs.MachinePlaces.{bus_y, parts_y, part_height, most_lines, machine_height};
ghost use Rattle.tta_draw.specs.MachinePlaces.{short_x, lines_x, files_x, imms_x, templates_x, units_x};
ghost use Rattle.tta_draw.specs.MachinePlaces.{control_x, machine_width, part_frame, line_spot};
ghost use Rattle.tta_draw.specs.MachinePlaces.{stem_frame, port_spot, socket_spot, bus_frame, bus_spot};
ghost use Rattle.tta_draw.specs.MachinePlaces.{short_spot, space_spot};

use crate::frame::{Frame, Spot};
use crate::machine_widths::{
    after_files, after_imms, after_templates, after_units, control_width, wider_buses,
};
use tta_arch::{Machine, Unit};
use tta_ops::UnitSet;

/// The height of a bus.
pub fn bus_y(bus: usize) -> u64
    requires { bus ≤ 16 }
    ensures { result ≡ bus_y bus }
{
    196 + 28 * bus as u64
}

/// How low the parts begin.
pub fn parts_y(m: &Machine) -> u64
    ensures all { result ≡ parts_y m.now }
    ensures few { result ≤ 1024 }
{
    bus_y(m.buses.len()) + 16
}

/// How high a part is that has so many lines under its name.
fn part_height(lines: usize) -> u64
    requires { lines ≤ 300 }
    ensures { result ≡ part_height lines }
{
    48 + 18 * lines as u64
}

/// The units of a machine.
pub fn units_of(m: &Machine) -> &[Unit]
    ensures all { result.now ≡ m.now.units }
    ensures few { length result.now ≤ 32 }
    ensures ops { All (λ u. length u.ops ≤ 256) result.now }
{
    m.units.as_slice()
}

/// The most lines of a part: those of a file, or the operations of a unit.
fn most_lines(units: &[Unit]) -> usize
    requires { All (λ u. length u.ops ≤ 256) units.now }
    ensures all { result ≡ most_lines units.now }
    ensures few { result ≤ 256 }
{
    let mut most = 4;
    for u in units {
        most = most.max(u.ops.len());
    }
    most
}

/// The height of the picture.
pub fn machine_height(m: &Machine) -> u64
    ensures { result ≡ machine_height m.now }
{
    parts_y(m) + part_height(most_lines(units_of(m))) + 16
}

/// How far to the right the short words of buses stand.
fn short_x(m: &Machine) -> u64
    ensures all { result ≡ short_x m.now }
    ensures few { result ≤ 7012 }
{
    wider_buses(72, m.buses.as_slice()) + 4
}

/// How far to the right the lines of buses begin.
fn lines_x(m: &Machine) -> u64
    ensures all { result ≡ lines_x m.now }
    ensures few { result ≤ 7100 }
{
    short_x(m) + 88
}

/// How far to the right the first file begins.
pub fn files_x(m: &Machine) -> u64
    ensures all { result ≡ files_x m.now }
    ensures few { result ≤ 7116 }
{
    lines_x(m) + 16
}

/// How far to the right the first immediate unit begins.
pub fn imms_x(m: &Machine) -> u64
    ensures all { result ≡ imms_x m.now }
    ensures few { result ≤ 200000 }
{
    after_files(m, files_x(m), m.files.as_slice())
}

/// How far to the right the first template begins.
pub fn templates_x(m: &Machine) -> u64
    ensures all { result ≡ templates_x m.now }
    ensures few { result ≤ 300000 }
{
    after_imms(m, imms_x(m), m.imms.as_slice())
}

/// How far to the right the first unit begins.
pub fn units_x(m: &Machine) -> u64
    ensures all { result ≡ units_x m.now }
    ensures few { result ≤ 500000 }
{
    after_templates(m, templates_x(m), m.templates.as_slice())
}

/// How far to the right control begins.
pub fn control_x(units: &UnitSet, m: &Machine) -> u64
    ensures all { result ≡ control_x (stated unit_meaning units.now) m.now }
    ensures few { result ≤ 1200000 }
{
    after_units(units, m, units_x(m), units_of(m))
}

/// The width of the picture.
pub fn machine_width(units: &UnitSet, m: &Machine) -> u64
    ensures all { result ≡ machine_width (stated unit_meaning units.now) m.now }
    ensures few { result ≤ 1300000 }
{
    800_u64.max(control_x(units, m) + control_width(m) + 16)
}

/// The box of a part.
pub fn part_frame(m: &Machine, left: u64, width: u64, lines: usize) -> Frame
    requires { lines ≤ 300 }
    ensures { result ≡ part_frame m.now left width lines }
{
    Frame {
        x: left,
        y: parts_y(m),
        width,
        height: part_height(lines),
    }
}

/// A line of a part; line 0 is its name.
pub fn line_spot(m: &Machine, left: u64, line: usize) -> Spot
    requires left { left ≤ 2000000 }
    requires line { line ≤ 300 }
    ensures { result ≡ line_spot m.now left line }
{
    Spot {
        x: left + 8,
        y: parts_y(m) + 35 + 18 * line as u64,
    }
}

/// The line from the first bus down to a port.
pub fn stem_frame(m: &Machine, x: u64) -> Frame
    ensures { result ≡ stem_frame m.now x }
{
    Frame {
        x,
        y: bus_y(0),
        width: 2,
        height: parts_y(m) - bus_y(0),
    }
}

/// The name of a port.
pub fn port_spot(m: &Machine, x: u64) -> Spot
    requires { x ≤ 2000000 }
    ensures { result ≡ port_spot m.now x }
{
    Spot {
        x: x + 1,
        y: parts_y(m) + 15,
    }
}

/// The name of the socket at a port.
pub fn socket_spot(m: &Machine, x: u64) -> Spot
    requires { x ≤ 2000000 }
    ensures { result ≡ socket_spot m.now x }
{
    Spot {
        x: x + 6,
        y: parts_y(m) - 5,
    }
}

/// The line of a bus.
pub fn bus_frame(units: &UnitSet, m: &Machine, bus: usize) -> Frame
    requires { bus ≤ 16 }
    ensures { result ≡ bus_frame (stated unit_meaning units.now) m.now bus }
{
    Frame {
        x: lines_x(m),
        y: bus_y(bus) - 1,
        width: machine_width(units, m)
            .saturating_sub(lines_x(m))
            .saturating_sub(16),
        height: 2,
    }
}

/// The name of a bus.
pub fn bus_spot(bus: usize) -> Spot
    requires { bus ≤ 16 }
    ensures { result ≡ bus_spot bus }
{
    Spot {
        x: 8,
        y: bus_y(bus) + 4,
    }
}

/// How wide the short words of a bus are.
pub fn short_spot(m: &Machine, bus: usize) -> Spot
    requires { bus ≤ 16 }
    ensures { result ≡ short_spot m.now bus }
{
    Spot {
        x: short_x(m) + 4,
        y: bus_y(bus) + 4,
    }
}

/// How many words a space has.
pub fn space_spot(space: u64) -> Spot
    requires { space ≤ 1 }
    ensures { result ≡ space_spot space }
{
    Spot {
        x: 8 + 160 * space,
        y: 20,
    }
}
