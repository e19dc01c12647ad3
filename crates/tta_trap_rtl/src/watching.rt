//! The registers that tell which places have had words, and whether the address is past all addresses.

ghost use Rattle.std.specs.Prelude.{◌≡◌, ◌+◌, ◌≤◌, ◌++◌, length, OnOk};
ghost use Rattle.std.specs.List.{enumerate_from, flat_map, range_with_len};
ghost use Rattle.tta_arch.specs.Fields.{numbers};
ghost use Rattle.tta_names.specs.Watches.{watch_of};
ghost use Rattle.tta_trap.specs.Memory.{watch_registers};
ghost use Rattle.tta_trap_rtl.specs.Texts as x;

use crate::becoming::push_becomes;
use std::alloc::AllocError;
use tta_arch::{File, ImmUnit, Unit};
use tta_names::{Place, Watch, push_watch};
use tta_rtl::{On, start_register};
use tta_verilog::push_text;

/// Puts such a register.
#[tactic(auto, unfolding(tta_rtl::specs::Texts::register_rest, crate::specs::Texts::watch_line))]
fn push_register(
    out: &mut Vec<u8>,
    on: &On<'_>,
    declares: bool,
    watch: Watch,
) -> Result<(), AllocError>
    ensures { OnOk result (out.new.items ≡ out.old.items
        ++ x.watch_line on.now.m.now declares (watch_of watch)) }
{
    start_register(out, declares, 1, true)?;
    push_watch(out, on.m, watch)?;
    if declares {
        return push_text(out, b";\n");
    }
    push_text(out, b" <= ")?;
    push_becomes(out, on, watch)?;
    push_text(out, b";\n")
}

/// Puts whether so many registers of a file have had words.
fn push_file_lines(
    out: &mut Vec<u8>,
    on: &On<'_>,
    declares: bool,
    file: u8,
    size: u8,
) -> Result<(), AllocError>
    ensures { OnOk result (out.new.items ≡ out.old.items
        ++ flat_map (x.file_line on.now.m.now declares file) (numbers size)) }
{
    for index in 0..size {
        push_register(
            out,
            on,
            declares,
            Watch::HasWord(Place::Reg { file, index }),
        )?;
    }
    Ok(())
}

/// Puts whether so many registers of an immediate unit have.
fn push_imm_lines(
    out: &mut Vec<u8>,
    on: &On<'_>,
    declares: bool,
    unit: u8,
    size: u8,
) -> Result<(), AllocError>
    ensures { OnOk result (out.new.items ≡ out.old.items
        ++ flat_map (x.imm_line on.now.m.now declares unit) (numbers size)) }
{
    for index in 0..size {
        push_register(
            out,
            on,
            declares,
            Watch::HasWord(Place::Imm { unit, index }),
        )?;
    }
    Ok(())
}

/// Puts whether the registers of a file have.
#[tactic(auto, unfolding(crate::specs::Texts::lines_of_file))]
fn push_file(
    out: &mut Vec<u8>,
    on: &On<'_>,
    declares: bool,
    file: u8,
    f: &File,
) -> Result<(), AllocError>
    ensures { OnOk result (out.new.items ≡ out.old.items
        ++ x.lines_of_file on.now.m.now declares (file, f.now)) }
{
    push_file_lines(out, on, declares, file, f.size)
}

/// Puts whether those of an immediate unit have.
#[tactic(auto, unfolding(crate::specs::Texts::lines_of_imm))]
fn push_imm(
    out: &mut Vec<u8>,
    on: &On<'_>,
    declares: bool,
    unit: u8,
    i: &ImmUnit,
) -> Result<(), AllocError>
    ensures { OnOk result (out.new.items ≡ out.old.items
        ++ x.lines_of_imm on.now.m.now declares (unit, i.now)) }
{
    push_imm_lines(out, on, declares, unit, i.size)
}

/// Puts whether the registers of files have, of files from one on.
fn push_files_from(
    out: &mut Vec<u8>,
    on: &On<'_>,
    declares: bool,
    file: u8,
    files: &[File],
) -> Result<(), AllocError>
    requires { file + length files.now ≤ 255 }
    ensures { OnOk result (out.new.items ≡ out.old.items
        ++ flat_map (x.lines_of_file on.now.m.now declares) (enumerate_from file files.now)) }
{
    match files {
        [] => Ok(()),
        [f, rest @ ..] => {
            push_file(out, on, declares, file, f)?;
            push_files_from(out, on, declares, file + 1, rest)
        }
    }
}

/// Puts whether the registers of immediate units have, of units from one on.
fn push_imms_from(
    out: &mut Vec<u8>,
    on: &On<'_>,
    declares: bool,
    unit: u8,
    imms: &[ImmUnit],
) -> Result<(), AllocError>
    requires { unit + length imms.now ≤ 255 }
    ensures { OnOk result (out.new.items ≡ out.old.items
        ++ flat_map (x.lines_of_imm on.now.m.now declares) (enumerate_from unit imms.now)) }
{
    match imms {
        [] => Ok(()),
        [i, rest @ ..] => {
            push_imm(out, on, declares, unit, i)?;
            push_imms_from(out, on, declares, unit + 1, rest)
        }
    }
}

/// Puts whether the ports of a unit have.
#[tactic(auto, unfolding(crate::specs::Texts::lines_of_unit))]
fn push_unit(out: &mut Vec<u8>, on: &On<'_>, declares: bool, unit: u8) -> Result<(), AllocError>
    ensures { OnOk result
        (out.new.items ≡ out.old.items ++ x.lines_of_unit on.now.m.now declares unit) }
{
    push_register(out, on, declares, Watch::HasWord(Place::Operand { unit }))?;
    push_register(out, on, declares, Watch::HasWord(Place::Port { unit }))
}

/// Puts whether the ports of units have, of units from one on.
fn push_units_from(
    out: &mut Vec<u8>,
    on: &On<'_>,
    declares: bool,
    unit: u8,
    units: &[Unit],
) -> Result<(), AllocError>
    requires { unit + length units.now ≤ 255 }
    ensures { OnOk result (out.new.items ≡ out.old.items
        ++ flat_map (x.lines_of_unit on.now.m.now declares) (range_with_len unit (length units.now))) }
{
    match units {
        [] => Ok(()),
        [_, rest @ ..] => {
            push_unit(out, on, declares, unit)?;
            push_units_from(out, on, declares, unit + 1, rest)
        }
    }
}

/// Puts whether the registers of all files have had words.
fn push_files(out: &mut Vec<u8>, on: &On<'_>, declares: bool) -> Result<(), AllocError>
    ensures { let M = on.now.m.now in OnOk result (out.new.items ≡ out.old.items
        ++ flat_map (x.lines_of_file M declares) (enumerate_from 0 M.files)) }
{
    let m = on.m;
    push_files_from(out, on, declares, 0, m.files.as_slice())
}

/// Puts whether those of all immediate units have.
fn push_imms(out: &mut Vec<u8>, on: &On<'_>, declares: bool) -> Result<(), AllocError>
    ensures { let M = on.now.m.now in OnOk result (out.new.items ≡ out.old.items
        ++ flat_map (x.lines_of_imm M declares) (enumerate_from 0 M.imms)) }
{
    let m = on.m;
    push_imms_from(out, on, declares, 0, m.imms.as_slice())
}

/// Puts whether the ports of all units have.
fn push_units(out: &mut Vec<u8>, on: &On<'_>, declares: bool) -> Result<(), AllocError>
    ensures { let M = on.now.m.now in OnOk result (out.new.items ≡ out.old.items
        ++ flat_map (x.lines_of_unit M declares) (numbers (length M.units))) }
{
    let m = on.m;
    push_units_from(out, on, declares, 0, m.units.as_slice())
}

/// Puts whether all places have had words.
fn push_places(out: &mut Vec<u8>, on: &On<'_>, declares: bool) -> Result<(), AllocError>
    ensures { OnOk result
        (out.new.items ≡ out.old.items ++ x.places_lines on.now.m.now declares) }
{
    push_files(out, on, declares)?;
    push_imms(out, on, declares)?;
    push_units(out, on, declares)?;
    push_register(out, on, declares, Watch::HasWord(Place::Ra))
}

/// Puts all these registers: their names, and else what each becomes.
pub fn push_watches(out: &mut Vec<u8>, on: &On<'_>, declares: bool) -> Result<(), AllocError>
    ensures { let M = on.now.m.now in OnOk result (out.new.items ≡ out.old.items
        ++ x.watches_text M declares (watch_registers M)) }
{
    push_places(out, on, declares)?;
    push_register(out, on, declares, Watch::IsPast)
}
