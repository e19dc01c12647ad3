//! How wide the parts of a machine are in its picture.

ghost use Rattle.std.specs.Prelude.{◌≡◌, ◌+◌, ◌*◌, ◌≤◌, length};
ghost use Rattle.tta_ops.specs.Set.{stated};
ghost use Rattle.tta_draw.specs.MachineWidths.{port_width, port_width_if, part_width, file_width};
ghost use Rattle.tta_draw.specs.MachineWidths.{imm_width, template_width, wider_ops, unit_width};
ghost use Rattle.tta_draw.specs.MachineWidths.{control_width, wider_buses, after_files, after_imms};
ghost use Rattle.tta_draw.specs.MachineWidths.{after_templates, after_units};

use crate::widths::text_width;
use tta_arch::{Bus, File, ImmUnit, Machine, Template, Unit, UnitOp};
use tta_disasm::{imm_name, op_name};
use tta_list::entry_at;
use tta_ops::UnitSet;

/// How much room a port takes, by its socket.
pub fn port_width(m: &Machine, socket: u8) -> u64
    ensures all { result ≡ port_width m.now socket }
    ensures few { result ≤ 7008 }
{
    match entry_at(m.sockets.as_slice(), socket) {
        Some(s) => text_width(s.name.as_bytes().len()).max(40),
        None => 40,
    }
}

/// How much room a port takes that a part may lack, by its socket.
pub fn port_width_if(m: &Machine, socket: Option<u8>) -> u64
    ensures all { result ≡ port_width_if m.now socket }
    ensures few { result ≤ 7008 }
{
    match socket {
        Some(socket) => port_width(m, socket),
        None => 40,
    }
}

/// How wide a part is whose widest line and whose ports have these widths.
fn part_width(line: u64, ports: u64) -> u64
    requires line { line ≤ 7029 }
    requires ports { ports ≤ 21024 }
    ensures all { result ≡ part_width line ports }
    ensures few { result ≤ 21028 }
{
    124_u64.max(line + 8).max(ports + 4)
}

/// How wide a file is.
pub fn file_width(m: &Machine, f: &File) -> u64
    ensures all { result ≡ file_width m.now f.now }
    ensures few { result ≤ 21028 }
{
    let ports = port_width(m, f.into) + 40 + port_width(m, f.out);
    part_width(text_width(f.name.as_bytes().len()), ports)
}

/// How wide an immediate unit is.
pub fn imm_width(m: &Machine, i: &ImmUnit) -> u64
    ensures all { result ≡ imm_width m.now i.now }
    ensures few { result ≤ 21028 }
{
    let ports = 80 + port_width(m, i.out);
    part_width(text_width(i.name.as_bytes().len()), ports)
}

/// How wide a template is.
pub fn template_width(m: &Machine, t: &Template) -> u64
    ensures all { result ≡ template_width m.now t.now }
    ensures few { result ≤ 21028 }
{
    let name = text_width(t.name.as_bytes().len());
    let register = text_width(imm_name(m, t.imm).len()) + 21;
    part_width(name.max(register), 120)
}

/// The widest of a width and of the lines of operations.
fn wider_ops(units: &UnitSet, width: u64, ops: &[UnitOp]) -> u64
    requires { width ≤ 7029 }
    ensures all { result ≡ wider_ops (stated unit_meaning units.now) width ops.now }
    ensures few { result ≤ 7029 }
{
    let mut widest = width;
    for o in ops {
        widest = widest.max(text_width(op_name(units, o.op).len()) + 21);
    }
    widest
}

/// How wide a unit is.
pub fn unit_width(units: &UnitSet, m: &Machine, u: &Unit) -> u64
    ensures all { result ≡ unit_width (stated unit_meaning units.now) m.now u.now }
    ensures few { result ≤ 21028 }
{
    let name = text_width(u.name.as_bytes().len());
    let widest = wider_ops(units, name, u.ops.as_slice());
    let ports = port_width_if(m, u.operand) + port_width(m, u.trigger);
    part_width(widest, ports + port_width_if(m, u.result))
}

/// How wide control is.
pub fn control_width(m: &Machine) -> u64
    ensures all { result ≡ control_width m.now }
    ensures few { result ≤ 21028 }
{
    let trigger = port_width(m, m.control.trigger);
    part_width(0, 40 + trigger + port_width_if(m, m.control.ra))
}

/// The widest of a width and of the names of buses.
pub fn wider_buses(width: u64, buses: &[Bus]) -> u64
    requires { width ≤ 7008 }
    ensures all { result ≡ wider_buses width buses.now }
    ensures few { result ≤ 7008 }
{
    let mut widest = width;
    for b in buses {
        widest = widest.max(text_width(b.name.as_bytes().len()));
    }
    widest
}

/// How far to the right the next part begins after files, the first of which begins so.
pub fn after_files(m: &Machine, left: u64, files: &[File]) -> u64
    requires left { left ≤ 2000000 }
    requires few { length files.now ≤ 64 }
    ensures all { result ≡ after_files m.now left files.now }
    ensures few { result ≤ left + 21044 * length files.now }
{
    let mut next = left;
    for f in files {
        next += file_width(m, f) + 16;
    }
    next
}

/// How far to the right the next part begins after immediate units, the first of which begins so.
pub fn after_imms(m: &Machine, left: u64, imms: &[ImmUnit]) -> u64
    requires left { left ≤ 2000000 }
    requires few { length imms.now ≤ 64 }
    ensures all { result ≡ after_imms m.now left imms.now }
    ensures few { result ≤ left + 21044 * length imms.now }
{
    let mut next = left;
    for i in imms {
        next += imm_width(m, i) + 16;
    }
    next
}

/// How far to the right the next part begins after templates, the first of which begins so.
pub fn after_templates(m: &Machine, left: u64, templates: &[Template]) -> u64
    requires left { left ≤ 2000000 }
    requires few { length templates.now ≤ 64 }
    ensures all { result ≡ after_templates m.now left templates.now }
    ensures few { result ≤ left + 21044 * length templates.now }
{
    let mut next = left;
    for t in templates {
        next += template_width(m, t) + 16;
    }
    next
}

/// How far to the right the next part begins after units, the first of which begins so.
pub fn after_units(set: &UnitSet, m: &Machine, left: u64, units: &[Unit]) -> u64
    requires left { left ≤ 2000000 }
    requires few { length units.now ≤ 64 }
    ensures all { result ≡ after_units (stated unit_meaning set.now) m.now left units.now }
    ensures few { result ≤ left + 21044 * length units.now }
{
    let mut next = left;
    for u in units {
        next += unit_width(set, m, u) + 16;
    }
    next
}
