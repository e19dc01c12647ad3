//! What is told of each bus.

ghost use Rattle.std.specs.Prelude.{◌≡◌, ◌+◌, ◌≤◌, ◌++◌, true, slice_get, IfSome, OnOk};
ghost use Rattle.std.specs.Option.{option_copied};
ghost use Rattle.tta_arch.specs.Rules.{is_bus};
ghost use Rattle.tta_info.specs.Buses.{fields_text, range_text, words_text, bus_text, bus_at_text};
ghost use Rattle.tta_info.specs.Buses.{files_read, imms_read, units_read, sources_text};
ghost use Rattle.tta_info.specs.Buses.{files_written, ports_text, units_written, dests_text};
ghost use Rattle.tta_info.specs.Buses.{joins_text, buses_text};

use crate::lines::{end_line, push_count, push_named_if, push_number, start_line};
use std::alloc::AllocError;
use tta_arch::{Bus, BusFields, File, ImmUnit, Machine, Unit, has_socket};
use tta_list::power_of_two;

/// How many bits a source's field has: a tag bit before a code or a short word.
fn with_tag(payload: u32) -> u64
    ensures { result ≡ 1 + payload }
{
    1 + u64::from(payload)
}

/// Puts the bits of the fields of a bus.
#[tactic(auto, unfolding(crate::specs::Buses::fields_text))]
fn push_fields(out: &mut Vec<u8>, name: &[u8], f: &BusFields) -> Result<(), AllocError>
    ensures { OnOk result (out.new.items ≡ out.old.items ++ fields_text name.now f.now) }
{
    start_line(out, b"bus ", name, b" bits ")?;
    push_number(out, u64::from(f.width))?;
    push_count(out, b" guard ", u64::from(f.guard_width))?;
    push_count(out, b" source ", with_tag(f.payload_width))?;
    push_count(out, b" destination ", u64::from(f.dest_width))?;
    end_line(out)
}

/// Puts the least and the greatest word of a field of some bits.
#[tactic(auto, unfolding(crate::specs::Buses::range_text))]
fn push_range(out: &mut Vec<u8>, signed: bool, bits: u8) -> Result<(), AllocError>
    requires least { 1 ≤ bits }
    requires most { bits ≤ 32 }
    ensures { OnOk result (out.new.items ≡ out.old.items ++ range_text signed bits) }
{
    if !signed {
        return push_count(out, b"0 to ", power_of_two(u32::from(bits)) - 1);
    }
    let half = power_of_two(u32::from(bits - 1));
    push_count(out, b"-", half)?;
    push_count(out, b" to ", half - 1)
}

/// Puts the words that fit into the short field of a bus.
#[tactic(auto, unfolding(crate::specs::Buses::words_text))]
fn push_words(out: &mut Vec<u8>, b: &Bus) -> Result<(), AllocError>
    requires { is_bus b.now ≡ true }
    ensures { OnOk result (out.new.items ≡ out.old.items ++ words_text b.now) }
{
    start_line(out, b"bus ", b.name.as_bytes(), b" words ")?;
    push_range(out, b.signed, b.short)?;
    end_line(out)
}

/// Puts the files that a bus reads.
fn push_files_read(
    out: &mut Vec<u8>,
    m: &Machine,
    bus: usize,
    files: &[File],
) -> Result<(), AllocError>
    ensures { OnOk result (out.new.items ≡ out.old.items ++ files_read m.now bus files.now) }
{
    for f in files {
        let reads = has_socket(m, false, Some(f.out), bus);
        push_named_if(out, reads, f.name.as_bytes(), b"")?;
    }
    Ok(())
}

/// Puts the immediate units that a bus reads.
fn push_imms_read(
    out: &mut Vec<u8>,
    m: &Machine,
    bus: usize,
    imms: &[ImmUnit],
) -> Result<(), AllocError>
    ensures { OnOk result (out.new.items ≡ out.old.items ++ imms_read m.now bus imms.now) }
{
    for i in imms {
        let reads = has_socket(m, false, Some(i.out), bus);
        push_named_if(out, reads, i.name.as_bytes(), b"")?;
    }
    Ok(())
}

/// Puts the units whose results a bus reads.
fn push_units_read(
    out: &mut Vec<u8>,
    m: &Machine,
    bus: usize,
    units: &[Unit],
) -> Result<(), AllocError>
    ensures { OnOk result (out.new.items ≡ out.old.items ++ units_read m.now bus units.now) }
{
    for q in units {
        let reads = has_socket(m, false, q.result, bus);
        push_named_if(out, reads, q.name.as_bytes(), b".r")?;
    }
    Ok(())
}

/// Puts all that a bus can read.
#[tactic(auto, unfolding(crate::specs::Buses::sources_text))]
fn push_sources(out: &mut Vec<u8>, m: &Machine, bus: usize) -> Result<(), AllocError>
    ensures { OnOk result (out.new.items ≡ out.old.items ++ sources_text m.now bus) }
{
    push_files_read(out, m, bus, m.files.as_slice())?;
    push_imms_read(out, m, bus, m.imms.as_slice())?;
    push_units_read(out, m, bus, m.units.as_slice())?;
    push_named_if(out, has_socket(m, false, m.control.ra, bus), b"gcu.ra", b"")
}

/// Puts the files that a bus writes.
fn push_files_written(
    out: &mut Vec<u8>,
    m: &Machine,
    bus: usize,
    files: &[File],
) -> Result<(), AllocError>
    ensures { OnOk result (out.new.items ≡ out.old.items ++ files_written m.now bus files.now) }
{
    for f in files {
        let writes = has_socket(m, true, Some(f.into), bus);
        push_named_if(out, writes, f.name.as_bytes(), b"")?;
    }
    Ok(())
}

/// Puts the ports of a unit that a bus writes.
#[tactic(auto, unfolding(crate::specs::Buses::ports_text))]
fn push_ports(out: &mut Vec<u8>, m: &Machine, bus: usize, q: &Unit) -> Result<(), AllocError>
    ensures { OnOk result (out.new.items ≡ out.old.items ++ ports_text m.now bus q.now) }
{
    let name = q.name.as_bytes();
    push_named_if(out, has_socket(m, true, q.operand, bus), name, b".o")?;
    push_named_if(out, has_socket(m, true, Some(q.trigger), bus), name, b".t")
}

/// Puts the ports of units that a bus writes.
fn push_units_written(
    out: &mut Vec<u8>,
    m: &Machine,
    bus: usize,
    units: &[Unit],
) -> Result<(), AllocError>
    ensures { OnOk result (out.new.items ≡ out.old.items ++ units_written m.now bus units.now) }
{
    for q in units {
        push_ports(out, m, bus, q)?;
    }
    Ok(())
}

/// Puts all that a bus can write.
#[tactic(auto, unfolding(crate::specs::Buses::dests_text))]
fn push_dests(out: &mut Vec<u8>, m: &Machine, bus: usize) -> Result<(), AllocError>
    ensures { OnOk result (out.new.items ≡ out.old.items ++ dests_text m.now bus) }
{
    push_files_written(out, m, bus, m.files.as_slice())?;
    push_units_written(out, m, bus, m.units.as_slice())?;
    let writes = has_socket(m, true, Some(m.control.trigger), bus);
    push_named_if(out, writes, b"gcu.t", b"")
}

/// Puts what a bus joins.
#[tactic(auto, unfolding(crate::specs::Buses::joins_text))]
fn push_joins(out: &mut Vec<u8>, m: &Machine, bus: usize, name: &[u8]) -> Result<(), AllocError>
    ensures { OnOk result (out.new.items ≡ out.old.items ++ joins_text m.now bus name.now) }
{
    start_line(out, b"bus ", name, b" from")?;
    push_sources(out, m, bus)?;
    start_line(out, b"\nbus ", name, b" to")?;
    push_dests(out, m, bus)?;
    end_line(out)
}

/// Puts all that is told of a bus.
#[tactic(auto, unfolding(crate::specs::Buses::bus_text))]
fn push_bus(
    out: &mut Vec<u8>,
    m: &Machine,
    bus: usize,
    f: &BusFields,
    b: &Bus,
) -> Result<(), AllocError>
    requires { is_bus b.now ≡ true }
    ensures { OnOk result (out.new.items ≡ out.old.items ++ bus_text m.now bus f.now b.now) }
{
    push_fields(out, b.name.as_bytes(), f)?;
    push_words(out, b)?;
    push_joins(out, m, bus, b.name.as_bytes())
}

/// The bus of a number, if the machine has it.
fn bus_at(m: &Machine, bus: usize) -> Option<&Bus>
    ensures is { option_copied result ≡ slice_get m.now.buses bus }
    ensures rules { IfSome result (λ b. is_bus b.now ≡ true) }
{
    m.buses.as_slice().get(bus)
}

/// Puts all that is told of the bus of a number.
fn push_bus_at(out: &mut Vec<u8>, m: &Machine, bus: usize, f: &BusFields) -> Result<(), AllocError>
    ensures { OnOk result (out.new.items ≡ out.old.items ++ bus_at_text m.now bus f.now) }
{
    match bus_at(m, bus) {
        Some(b) => push_bus(out, m, bus, f, b),
        None => Ok(()),
    }
}

/// Puts all that is told of the buses.
pub fn push_buses(out: &mut Vec<u8>, m: &Machine, fields: &[BusFields]) -> Result<(), AllocError>
    ensures { OnOk result (out.new.items ≡ out.old.items ++ buses_text m.now fields.now) }
{
    for (bus, f) in fields.iter().enumerate() {
        push_bus_at(out, m, bus, f)?;
    }
    Ok(())
}
