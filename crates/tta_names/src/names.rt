//! The names of signals in the text.

ghost use Rattle.std.specs.Prelude.{◌≡◌, ◌++◌, OnOk};
ghost use Rattle.tta_disasm.specs.Canonical.{unit_name};
ghost use Rattle.tta_names.specs.Names.{bus_name, counted, place_name};
ghost use Rattle.tta_arch.specs.Effects.{KeptReg, KeptImm};

use std::alloc::AllocError;
use tta_arch::Machine;
use tta_disasm::{file_name, imm_name, unit_name};
use tta_verilog::{push_number, push_text};

/// The name of a bus, and no bytes where the machine has no such bus.
fn bus_name(m: &Machine, bus: usize) -> &[u8]
    ensures { result.now ≡ bus_name m.now bus }
{
    match m.buses.as_slice().get(bus) {
        None => b"",
        Some(b) => b.name.as_bytes(),
    }
}

/// Puts a name that has a number, too.
fn push_counted(out: &mut Vec<u8>, what: &[u8], name: &[u8], n: u64) -> Result<(), AllocError>
    ensures { OnOk result (out.new.items ≡ out.old.items ++ counted what.now name.now n) }
{
    push_text(out, what)?;
    push_text(out, name)?;
    push_text(out, b"_")?;
    push_number(out, n)
}

/// Puts the name of a register of a file.
pub fn push_register(out: &mut Vec<u8>, m: &Machine, file: u8, index: u8) -> Result<(), AllocError>
    ensures { OnOk result
        (out.new.items ≡ out.old.items ++ place_name m.now (KeptReg file index)) }
{
    push_counted(out, b"reg_", file_name(m, file), u64::from(index))
}

/// Puts the name of a register of an immediate unit.
pub fn push_immediate(out: &mut Vec<u8>, m: &Machine, unit: u8, index: u8) -> Result<(), AllocError>
    ensures { OnOk result
        (out.new.items ≡ out.old.items ++ place_name m.now (KeptImm unit index)) }
{
    push_counted(out, b"imm_", imm_name(m, unit), u64::from(index))
}

/// Puts the name of a signal of a unit.
pub fn push_of_unit(out: &mut Vec<u8>, m: &Machine, what: &[u8], unit: u8) -> Result<(), AllocError>
    ensures { OnOk result (out.new.items ≡ out.old.items ++ (what.now ++ unit_name m.now unit)) }
{
    push_text(out, what)?;
    push_text(out, unit_name(m, unit))
}

/// Puts the name of a signal of a unit and of an operation or a number of cycles.
pub fn push_of_op(
    out: &mut Vec<u8>,
    m: &Machine,
    what: &[u8],
    unit: u8,
    n: u8,
) -> Result<(), AllocError>
    ensures { OnOk result
        (out.new.items ≡ out.old.items ++ counted what.now (unit_name m.now unit) n) }
{
    push_counted(out, what, unit_name(m, unit), u64::from(n))
}

/// Puts the name of a signal of a bus.
pub fn push_of_bus(
    out: &mut Vec<u8>,
    m: &Machine,
    what: &[u8],
    bus: usize,
) -> Result<(), AllocError>
    ensures { OnOk result (out.new.items ≡ out.old.items ++ (what.now ++ bus_name m.now bus)) }
{
    push_text(out, what)?;
    push_text(out, bus_name(m, bus))
}
