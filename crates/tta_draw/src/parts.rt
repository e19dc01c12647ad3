//! The parts of a machine in its picture.

ghost use Rattle.std.specs.Prelude.{◌≡◌, ◌≤◌, ◌++◌, length, OnOk};
ghost use Rattle.tta_ops.specs.Set.{stated};
ghost use Rattle.tta_draw.specs.MachinePicture.{part_text, told_text, file_lines_text, file_text};
ghost use Rattle.tta_draw.specs.MachinePicture.{imm_text, template_text, op_text, op_line_text};
ghost use Rattle.tta_draw.specs.MachinePicture.{ops_text, unit_ports_text, unit_text, control_text};
ghost use Rattle.tta_draw.specs.MachinePicture.{written_text};

use crate::machine_places::{line_spot, part_frame};
use crate::machine_widths::{
    control_width, file_width, imm_width, port_width, port_width_if, template_width, unit_width,
};
use crate::ports::{push_port, push_port_if, push_stem};
use crate::svg::{end_label, push_box, push_count, push_label, push_number, start_label};
use std::alloc::AllocError;
use tta_arch::{File, ImmUnit, Machine, Template, Unit, UnitOp};
use tta_disasm::{imm_name, op_name, push_place};
use tta_ops::UnitSet;

/// Puts the box of a part, so wide and for so many lines, with its name.
#[tactic(auto, unfolding(crate::specs::MachinePicture::part_text))]
fn push_part(
    out: &mut Vec<u8>,
    m: &Machine,
    left: u64,
    width: u64,
    lines: usize,
    name: &[u8],
) -> Result<(), AllocError>
    requires left { left ≤ 2000000 }
    requires lines { lines ≤ 300 }
    ensures { OnOk result (out.new.items
        ≡ out.old.items ++ part_text m.now left width lines name.now) }
{
    push_box(out, b"part", part_frame(m, left, width, lines))?;
    push_label(out, b"title", line_spot(m, left, 0), name)
}

/// Puts a line of a part that has a number.
fn push_told(
    out: &mut Vec<u8>,
    m: &Machine,
    left: u64,
    line: usize,
    name: &[u8],
    n: u8,
) -> Result<(), AllocError>
    requires left { left ≤ 2000000 }
    requires line { line ≤ 300 }
    ensures { OnOk result (out.new.items ≡ out.old.items ++ told_text m.now left line name.now n) }
{
    push_count(out, b"line", line_spot(m, left, line), name, u64::from(n))
}

/// Puts what is told of a file.
#[tactic(auto, unfolding(crate::specs::MachinePicture::file_lines_text))]
fn push_file_lines(out: &mut Vec<u8>, m: &Machine, left: u64, f: &File) -> Result<(), AllocError>
    requires { left ≤ 2000000 }
    ensures { OnOk result (out.new.items ≡ out.old.items ++ file_lines_text m.now left f.now) }
{
    push_told(out, m, left, 1, b"registers ", f.size)?;
    push_told(out, m, left, 2, b"bits ", f.width)?;
    push_told(out, m, left, 3, b"reads ", f.read)?;
    push_told(out, m, left, 4, b"writes ", f.write)
}

/// Puts a file.
#[tactic(auto, unfolding(crate::specs::MachinePicture::file_text))]
pub fn push_file(out: &mut Vec<u8>, m: &Machine, left: u64, f: &File) -> Result<(), AllocError>
    requires { left ≤ 1900000 }
    ensures { OnOk result (out.new.items ≡ out.old.items ++ file_text m.now left f.now) }
{
    push_part(out, m, left, file_width(m, f), 4, f.name.as_bytes())?;
    push_file_lines(out, m, left, f)?;
    push_port(out, m, left + 20, b"in", f.into)?;
    push_port(out, m, left + 60 + port_width(m, f.into), b"out", f.out)
}

/// Puts an immediate unit.
#[tactic(auto, unfolding(crate::specs::MachinePicture::imm_text))]
pub fn push_imm(out: &mut Vec<u8>, m: &Machine, left: u64, i: &ImmUnit) -> Result<(), AllocError>
    requires { left ≤ 1900000 }
    ensures { OnOk result (out.new.items ≡ out.old.items ++ imm_text m.now left i.now) }
{
    push_part(out, m, left, imm_width(m, i), 1, i.name.as_bytes())?;
    push_told(out, m, left, 1, b"registers ", i.size)?;
    push_port(out, m, left + 100, b"out", i.out)
}

/// Puts the register that a template writes, as a line of its part.
fn push_written(out: &mut Vec<u8>, m: &Machine, left: u64, t: &Template) -> Result<(), AllocError>
    requires { left ≤ 2000000 }
    ensures { OnOk result (out.new.items ≡ out.old.items ++ written_text m.now left t.now) }
{
    start_label(out, b"line", line_spot(m, left, 2))?;
    push_place(out, imm_name(m, t.imm), t.reg)?;
    end_label(out)
}

/// Puts a template: the register that it writes, and a dot on each bus that it takes.
#[tactic(auto, unfolding(crate::specs::MachinePicture::template_text))]
pub fn push_template(
    out: &mut Vec<u8>,
    m: &Machine,
    left: u64,
    t: &Template,
) -> Result<(), AllocError>
    requires { left ≤ 1900000 }
    ensures { OnOk result (out.new.items ≡ out.old.items ++ template_text m.now left t.now) }
{
    push_part(out, m, left, template_width(m, t), 2, t.name.as_bytes())?;
    push_label(out, b"note", line_spot(m, left, 1), b"long word to")?;
    push_written(out, m, left, t)?;
    push_stem(out, m, b"takes", left + 60, t.buses)
}

/// Puts an operation, with its latency if it has a result.
fn push_op(out: &mut Vec<u8>, units: &UnitSet, o: UnitOp) -> Result<(), AllocError>
    ensures { OnOk result (out.new.items
        ≡ out.old.items ++ op_text (stated unit_meaning units.now) o) }
{
    out.extend_from_slice(op_name(units, o.op))?;
    if o.latency == 0 {
        return Ok(());
    }
    out.extend_from_slice(b" ")?;
    push_number(out, u64::from(o.latency))
}

/// Puts an operation as a line of its unit.
fn push_op_line(
    out: &mut Vec<u8>,
    units: &UnitSet,
    m: &Machine,
    left: u64,
    line: usize,
    o: UnitOp,
) -> Result<(), AllocError>
    requires left { left ≤ 2000000 }
    requires line { line ≤ 300 }
    ensures { OnOk result (out.new.items ≡ out.old.items
        ++ op_line_text (stated unit_meaning units.now) m.now left line o) }
{
    start_label(out, b"line", line_spot(m, left, line))?;
    push_op(out, units, o)?;
    end_label(out)
}

/// Puts the operations of a unit, a line each.
fn push_ops(
    out: &mut Vec<u8>,
    units: &UnitSet,
    m: &Machine,
    left: u64,
    ops: &[UnitOp],
) -> Result<(), AllocError>
    requires left { left ≤ 2000000 }
    requires few { length ops.now ≤ 256 }
    ensures { OnOk result (out.new.items ≡ out.old.items
        ++ ops_text (stated unit_meaning units.now) m.now left ops.now) }
{
    for (op, o) in ops.iter().enumerate() {
        push_op_line(out, units, m, left, op + 1, *o)?;
    }
    Ok(())
}

/// Puts the ports of a unit.
#[tactic(auto, unfolding(crate::specs::MachinePicture::unit_ports_text))]
fn push_unit_ports(out: &mut Vec<u8>, m: &Machine, left: u64, u: &Unit) -> Result<(), AllocError>
    requires { left ≤ 1900000 }
    ensures { OnOk result (out.new.items ≡ out.old.items ++ unit_ports_text m.now left u.now) }
{
    push_port_if(out, m, left + 20, b"o", u.operand)?;
    let trigger = left + 20 + port_width_if(m, u.operand);
    push_port(out, m, trigger, b"t", u.trigger)?;
    push_port_if(out, m, trigger + port_width(m, u.trigger), b"r", u.result)
}

/// Puts a unit: its operations, and its ports.
#[tactic(auto, unfolding(crate::specs::MachinePicture::unit_text))]
pub fn push_unit(
    out: &mut Vec<u8>,
    units: &UnitSet,
    m: &Machine,
    left: u64,
    u: &Unit,
) -> Result<(), AllocError>
    requires left { left ≤ 1900000 }
    requires few { length u.now.ops ≤ 256 }
    ensures { OnOk result (out.new.items ≡ out.old.items
        ++ unit_text (stated unit_meaning units.now) m.now left u.now) }
{
    let width = unit_width(units, m, u);
    push_part(out, m, left, width, u.ops.len(), u.name.as_bytes())?;
    push_ops(out, units, m, left, u.ops.as_slice())?;
    push_unit_ports(out, m, left, u)
}

/// Puts control.
#[tactic(auto, unfolding(crate::specs::MachinePicture::control_text))]
pub fn push_control(out: &mut Vec<u8>, m: &Machine, left: u64) -> Result<(), AllocError>
    requires { left ≤ 1900000 }
    ensures { OnOk result (out.new.items ≡ out.old.items ++ control_text m.now left) }
{
    push_part(out, m, left, control_width(m), 2, b"gcu")?;
    push_told(out, m, left, 1, b"delay ", m.control.delay)?;
    push_told(out, m, left, 2, b"address bits ", m.control.address)?;
    push_port(out, m, left + 60, b"t", m.control.trigger)?;
    let back = left + 60 + port_width(m, m.control.trigger);
    push_port_if(out, m, back, b"ra", m.control.ra)
}
