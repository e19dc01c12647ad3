//! The picture of a machine.

ghost use Rattle.std.specs.Prelude.{◌≡◌, ◌≤◌, ◌++◌, length, All, IfOk, OnOk};
ghost use Rattle.tta_ops.specs.Set.{stated};
ghost use Rattle.tta_draw.specs.MachinePicture.{picture_of_machine, bus_text, buses_text};
ghost use Rattle.tta_draw.specs.MachinePicture.{parts_text, files_text, imms_text};
ghost use Rattle.tta_draw.specs.MachinePicture.{templates_text, units_text, short_text, spaces_text};
ghost use Rattle.tta_draw.specs.MachinePicture.{space_text};

use crate::legends::push_machine_legend;
use crate::machine_places::{
    bus_frame, bus_spot, control_x, files_x, imms_x, machine_height, machine_width, short_spot,
    space_spot, templates_x, units_of, units_x,
};
use crate::machine_widths::{file_width, imm_width, template_width, unit_width};
use crate::parts::{push_control, push_file, push_imm, push_template, push_unit};
use crate::svg::{
    end_label, push_box, push_count, push_head, push_label, push_number, push_tail, start_label,
};
use std::alloc::{AllocError, Global};
use tta_arch::{Bus, File, ImmUnit, Machine, Template, Unit};
use tta_ops::UnitSet;

/// Puts how many words a space has.
#[tactic(auto, unfolding(crate::specs::MachinePicture::space_text))]
fn push_space(out: &mut Vec<u8>, space: u64, name: &[u8], words: u32) -> Result<(), AllocError>
    requires { space ≤ 1 }
    ensures { OnOk result (out.new.items ≡ out.old.items ++ space_text space name.now words) }
{
    push_count(out, b"note", space_spot(space), name, u64::from(words))
}

/// Puts how many words the spaces have.
#[tactic(auto, unfolding(crate::specs::MachinePicture::spaces_text))]
fn push_spaces(out: &mut Vec<u8>, m: &Machine) -> Result<(), AllocError>
    ensures { OnOk result (out.new.items ≡ out.old.items ++ spaces_text m.now) }
{
    push_space(out, 0, b"data words ", m.data_words)?;
    push_space(out, 1, b"frame words ", m.frame_words)
}

/// Puts how many bits a short word of a bus has, and whether it is signed.
fn push_short(out: &mut Vec<u8>, m: &Machine, bus: usize, b: &Bus) -> Result<(), AllocError>
    requires { bus ≤ 16 }
    ensures { OnOk result (out.new.items ≡ out.old.items ++ short_text m.now bus b.now) }
{
    start_label(out, b"note", short_spot(m, bus))?;
    push_number(out, u64::from(b.short))?;
    let sense: &[u8] = if b.signed { b" signed" } else { b" unsigned" };
    out.extend_from_slice(sense)?;
    end_label(out)
}

/// Puts a bus: its name, its short words, and its line.
#[tactic(auto, unfolding(crate::specs::MachinePicture::bus_text))]
fn push_bus(
    out: &mut Vec<u8>,
    set: &UnitSet,
    m: &Machine,
    bus: usize,
    b: &Bus,
) -> Result<(), AllocError>
    requires { bus ≤ 16 }
    ensures { OnOk result (out.new.items ≡ out.old.items
        ++ bus_text (stated unit_meaning set.now) m.now bus b.now) }
{
    push_label(out, b"title", bus_spot(bus), b.name.as_bytes())?;
    push_short(out, m, bus, b)?;
    push_box(out, b"bus", bus_frame(set, m, bus))
}

/// Puts buses, the first of them at the top.
fn push_buses(
    out: &mut Vec<u8>,
    set: &UnitSet,
    m: &Machine,
    buses: &[Bus],
) -> Result<(), AllocError>
    requires { length buses.now ≤ 16 }
    ensures { OnOk result (out.new.items ≡ out.old.items
        ++ buses_text (stated unit_meaning set.now) m.now buses.now) }
{
    for (bus, b) in buses.iter().enumerate() {
        push_bus(out, set, m, bus, b)?;
    }
    Ok(())
}

/// Puts files side by side, the first of them so far to the right.
fn push_files(out: &mut Vec<u8>, m: &Machine, left: u64, files: &[File]) -> Result<(), AllocError>
    requires left { left ≤ 10000 }
    requires few { length files.now ≤ 8 }
    ensures { OnOk result (out.new.items ≡ out.old.items ++ files_text m.now left files.now) }
{
    let mut next = left;
    for f in files {
        push_file(out, m, next, f)?;
        next += file_width(m, f) + 16;
    }
    Ok(())
}

/// Puts immediate units.
fn push_imms(out: &mut Vec<u8>, m: &Machine, left: u64, imms: &[ImmUnit]) -> Result<(), AllocError>
    requires left { left ≤ 200000 }
    requires few { length imms.now ≤ 4 }
    ensures { OnOk result (out.new.items ≡ out.old.items ++ imms_text m.now left imms.now) }
{
    let mut next = left;
    for i in imms {
        push_imm(out, m, next, i)?;
        next += imm_width(m, i) + 16;
    }
    Ok(())
}

/// Puts templates.
fn push_templates(
    out: &mut Vec<u8>,
    m: &Machine,
    left: u64,
    templates: &[Template],
) -> Result<(), AllocError>
    requires left { left ≤ 300000 }
    requires few { length templates.now ≤ 8 }
    ensures { OnOk result (out.new.items
        ≡ out.old.items ++ templates_text m.now left templates.now) }
{
    let mut next = left;
    for t in templates {
        push_template(out, m, next, t)?;
        next += template_width(m, t) + 16;
    }
    Ok(())
}

/// Puts units.
fn push_units(
    out: &mut Vec<u8>,
    set: &UnitSet,
    m: &Machine,
    left: u64,
    units: &[Unit],
) -> Result<(), AllocError>
    requires left { left ≤ 500000 }
    requires few { length units.now ≤ 32 }
    requires ops { All (λ u. length u.ops ≤ 256) units.now }
    ensures { OnOk result (out.new.items ≡ out.old.items
        ++ units_text (stated unit_meaning set.now) m.now left units.now) }
{
    let mut next = left;
    for u in units {
        push_unit(out, set, m, next, u)?;
        next += unit_width(set, m, u) + 16;
    }
    Ok(())
}

/// Puts the parts from left to right.
#[tactic(auto, unfolding(crate::specs::MachinePicture::parts_text))]
fn push_parts(out: &mut Vec<u8>, set: &UnitSet, m: &Machine) -> Result<(), AllocError>
    ensures { OnOk result (out.new.items ≡ out.old.items
        ++ parts_text (stated unit_meaning set.now) m.now) }
{
    push_files(out, m, files_x(m), m.files.as_slice())?;
    push_imms(out, m, imms_x(m), m.imms.as_slice())?;
    push_templates(out, m, templates_x(m), m.templates.as_slice())?;
    push_units(out, set, m, units_x(m), units_of(m))?;
    push_control(out, m, control_x(set, m))
}

/// The picture of a machine, as SVG text: a legend, its buses as lines, and under them its parts, whose
/// ports are joined to the buses by dots. It fails only where there is no memory.
#[tactic(auto, unfolding(crate::specs::MachinePicture::picture_of_machine))]
pub fn draw_machine(alloc: Global, m: &Machine, set: &UnitSet) -> Result<Vec<u8>, AllocError>
    ensures { IfOk result (λ v.
        v.items ≡ picture_of_machine (stated unit_meaning set.now) m.now) }
{
    let mut out = Vec::new(alloc);
    push_head(&mut out, machine_width(set, m), machine_height(m))?;
    push_spaces(&mut out, m)?;
    push_machine_legend(&mut out)?;
    push_buses(&mut out, set, m, m.buses.as_slice())?;
    push_parts(&mut out, set, m)?;
    push_tail(&mut out)?;
    Ok(out)
}
