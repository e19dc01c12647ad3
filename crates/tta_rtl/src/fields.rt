//! The fields of an instruction as parts of its word.

ghost use Rattle.std.specs.Prelude.{◌≡◌, ◌+◌, ◌<◌, ◌^◌, ◌++◌, [], ◌∷◌, map, length, OnOk};
ghost use Rattle.std.specs.List.{flat_map, range_with_len, sum_by};
ghost use Rattle.tta_arch.specs.Fields.{dest_width, numbers, template_width};
ghost use Rattle.tta_arch.specs.Layout.{fields_of};
ghost use Rattle.tta_hardware.specs.Parts as p;
ghost use Rattle.tta_hardware.specs.Signals as s;
ghost use Rattle.tta_hardware.specs.Hardware.{all_fields, bus_fields, with_bits};
ghost use Rattle.tta_circuit.specs.Circuit as c;
ghost use Rattle.tta_names.specs.Names.{bus_name, text_of};
ghost use Rattle.tta_rtl.specs.Parts.{fields_text, part_text};
ghost use Rattle.tta_rtl.specs.Texts.{wire_start};
ghost use Rattle.tta_verilog.specs.Circuits.{wire_line};

use crate::on::On;
use crate::shorts::push_short_of;
use crate::templates::{push_long_from, push_part, push_takes_from, push_template, width_of};
use std::alloc::AllocError;
use tta_arch::{BusFields, Machine};
use tta_names::push_of_bus;
use tta_verilog::{push_constant, push_range, push_text};

/// Puts how the wire of a field of a bus begins.
#[tactic(auto, unfolding(crate::specs::Texts::wire_start))]
fn start_field(
    out: &mut Vec<u8>,
    m: &Machine,
    what: &[u8],
    bus: usize,
    width: u32,
) -> Result<(), AllocError>
    ensures { OnOk result (out.new.items ≡ out.old.items
        ++ wire_start (what.now ++ bus_name m.now bus) width) }
{
    push_text(out, b"wire ")?;
    push_range(out, width)?;
    push_of_bus(out, m, what, bus)?;
    push_text(out, b" = ")
}

/// Puts the wire of a field of a bus that is a part of the instruction's word, from a bit on.
#[tactic(auto, unfolding(crate::specs::Texts::wire_start, tta_verilog::specs::Circuits::wire_line))]
fn push_part_wire(
    out: &mut Vec<u8>,
    m: &Machine,
    what: &[u8],
    bus: usize,
    low: u32,
    width: u32,
) -> Result<(), AllocError>
    ensures { OnOk result (out.new.items ≡ out.old.items
        ++ wire_line (what.now ++ bus_name m.now bus) width (part_text low width)) }
{
    start_field(out, m, what, bus, width)?;
    push_part(out, low, width)?;
    push_text(out, b";\n")
}

/// Puts the code of the guard of a bus, if it has one. So many bits stand below it.
fn push_guard(
    out: &mut Vec<u8>,
    m: &Machine,
    bus: usize,
    f: &BusFields,
    below: u32,
) -> Result<(), AllocError>
    requires fields { f.now ≡ fields_of m.now bus }
    requires low { below ≡ p.below_guard m.now bus }
    ensures { OnOk result (out.new.items ≡ out.old.items
        ++ fields_text m.now (with_bits f.now.guard_width (s.GuardOf bus))) }
{
    if f.guard_width == 0 {
        return Ok(());
    }
    push_part_wire(out, m, b"guard_", bus, below, f.guard_width)
}

/// Puts the word of the short field of a bus. So many bits stand below it.
#[tactic(auto, unfolding(crate::specs::Texts::wire_start, tta_verilog::specs::Circuits::wire_line))]
fn push_short_wire(out: &mut Vec<u8>, m: &Machine, bus: usize, below: u32) -> Result<(), AllocError>
    requires room { below < 2 ^ 31 }
    requires low { below ≡ p.below_payload m.now bus }
    ensures { OnOk result (out.new.items ≡ out.old.items
        ++ fields_text m.now (s.ShortOf bus ∷ [])) }
{
    start_field(out, m, b"short_", bus, 32)?;
    push_short_of(out, m, bus, below)?;
    push_text(out, b";\n")
}

/// Puts the tag of a source, what stands after it, and the word of a short field. So many bits stand below
/// what stands after the tag.
fn push_source(
    out: &mut Vec<u8>,
    m: &Machine,
    bus: usize,
    f: &BusFields,
    below: u32,
) -> Result<(), AllocError>
    requires room { below + f.now.payload_width < 2 ^ 31 }
    requires fields { f.now ≡ fields_of m.now bus }
    requires low { below ≡ p.below_payload m.now bus }
    ensures { OnOk result (out.new.items ≡ out.old.items
        ++ fields_text m.now (s.IsShort bus ∷ s.SourceOf bus ∷ s.ShortOf bus ∷ [])) }
{
    push_part_wire(out, m, b"tag_", bus, below + f.payload_width, 1)?;
    push_part_wire(out, m, b"source_", bus, below, f.payload_width)?;
    push_short_wire(out, m, bus, below)
}

/// Puts the word of the destination's field, below which so many bits stand; a bus that is taken has none.
#[tactic(auto, unfolding(tta_verilog::specs::Expressions::choice))]
fn push_dest_word(
    out: &mut Vec<u8>,
    on: &On<'_>,
    bus: usize,
    width: u32,
    below: u32,
) -> Result<(), AllocError>
    requires width { width ≡ dest_width on.now.m.now bus }
    requires low { below ≡ p.below_bus on.now.m.now bus }
    ensures { let T = text_of on.now.m.now in
        OnOk result (out.new.items ≡ out.old.items
        ++ T (p.dest_part on.now.m.now (c.Signal s.Whole) bus)) }
{
    push_text(out, b"(")?;
    let m = on.m;
    push_takes_from(out, on, bus, 0, m.templates.as_slice())?;
    push_text(out, b")?(")?;
    push_constant(out, width, 0)?;
    push_text(out, b"):")?;
    push_part(out, below, width)
}

/// Puts the code of the destination of a bus, if it has one. So many bits stand below it.
#[tactic(auto, unfolding(crate::specs::Texts::wire_start, tta_verilog::specs::Circuits::wire_line))]
fn push_dest(
    out: &mut Vec<u8>,
    on: &On<'_>,
    bus: usize,
    f: &BusFields,
    below: u32,
) -> Result<(), AllocError>
    requires fields { f.now ≡ fields_of on.now.m.now bus }
    requires low { below ≡ p.below_bus on.now.m.now bus }
    ensures { OnOk result (out.new.items ≡ out.old.items
        ++ fields_text on.now.m.now (with_bits f.now.dest_width (s.DestOf bus))) }
{
    if f.dest_width == 0 {
        return Ok(());
    }
    start_field(out, on.m, b"dest_", bus, f.dest_width)?;
    push_dest_word(out, on, bus, f.dest_width, below)?;
    push_text(out, b";\n")
}

/// Puts the fields of a bus, below whose bits so many stand.
fn push_bus_fields(
    out: &mut Vec<u8>,
    on: &On<'_>,
    bus: usize,
    f: &BusFields,
    below: u32,
) -> Result<(), AllocError>
    requires fields { f.now ≡ fields_of on.now.m.now bus }
    requires room { below + f.now.width < 2 ^ 31 }
    requires low { below ≡ p.below_bus on.now.m.now bus }
    ensures { OnOk result (out.new.items ≡ out.old.items
        ++ fields_text on.now.m.now (bus_fields on.now.m.now bus)) }
{
    let payload = below + f.dest_width;
    push_guard(out, on.m, bus, f, payload + f.payload_width + 1)?;
    push_source(out, on.m, bus, f, payload)?;
    push_dest(out, on, bus, f, below)
}

/// Puts the fields of buses, from one on.
#[tactic(auto, using(crate::proofs::Shares::width_after))]
fn push_fields_from(
    out: &mut Vec<u8>,
    on: &On<'_>,
    bus: usize,
    buses: &[BusFields],
) -> Result<(), AllocError>
    requires few { bus + length buses.now < 2 ^ 64 }
    requires last { bus + length buses.now ≡ length on.now.m.now.buses }
    requires fields { buses.now ≡ map (fields_of on.now.m.now)
        (range_with_len bus (length buses.now)) }
    requires room { sum_by (λ f. f.width) buses.now < 2 ^ 31 }
    ensures { OnOk result (out.new.items ≡ out.old.items ++ fields_text on.now.m.now
        (flat_map (bus_fields on.now.m.now) (range_with_len bus (length buses.now)))) }
{
    match buses {
        [] => Ok(()),
        [f, rest @ ..] => {
            push_bus_fields(out, on, bus, f, width_of(rest))?;
            push_fields_from(out, on, bus + 1, rest)
        }
    }
}

/// Puts the fields of all buses.
#[tactic(auto, using(crate::proofs::Layouts::layout_fields, crate::proofs::Layouts::layout_count))]
fn push_all_buses(out: &mut Vec<u8>, on: &On<'_>) -> Result<(), AllocError>
    ensures { let M = on.now.m.now in
        OnOk result (out.new.items ≡ out.old.items
        ++ fields_text M (flat_map (bus_fields M) (numbers (length M.buses)))) }
{
    push_fields_from(out, on, 0, on.layout.buses.as_slice())
}

/// Puts the code of the template, if there are templates.
#[tactic(auto, unfolding(tta_verilog::specs::Circuits::wire_line))]
fn push_template_wire(out: &mut Vec<u8>, on: &On<'_>) -> Result<(), AllocError>
    ensures { let M = on.now.m.now in
        OnOk result (out.new.items ≡ out.old.items
        ++ fields_text M (with_bits (template_width M) s.TemplateOf)) }
{
    if on.layout.template_width == 0 {
        return Ok(());
    }
    push_text(out, b"wire ")?;
    push_range(out, on.layout.template_width)?;
    push_text(out, b"n_template = ")?;
    push_template(out, on)?;
    push_text(out, b";\n")
}

/// Puts the long immediate.
#[tactic(auto, unfolding(tta_verilog::specs::Circuits::wire_line))]
fn push_long_wire(out: &mut Vec<u8>, on: &On<'_>) -> Result<(), AllocError>
    ensures { OnOk result (out.new.items ≡ out.old.items
        ++ fields_text on.now.m.now (s.LongOf ∷ [])) }
{
    push_text(out, b"wire ")?;
    push_range(out, 32)?;
    push_text(out, b"n_long = ")?;
    let m = on.m;
    push_long_from(out, on, 0, m.templates.as_slice())?;
    push_text(out, b";\n")
}

/// Puts the wires of all fields.
pub fn push_fields(out: &mut Vec<u8>, on: &On<'_>) -> Result<(), AllocError>
    ensures { OnOk result (out.new.items ≡ out.old.items
        ++ fields_text on.now.m.now (all_fields on.now.m.now)) }
{
    push_all_buses(out, on)?;
    push_template_wire(out, on)?;
    push_long_wire(out, on)
}
