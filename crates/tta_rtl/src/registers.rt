//! The registers: those of files, of immediate units and of control.

ghost use Rattle.std.specs.Prelude.{◌≡◌, ◌+◌, ◌<◌, ◌≤◌, ◌^◌, ◌++◌, false, map, length, OnOk};
ghost use Rattle.std.specs.List.{enumerate_from, flat_map, range_with_len};
ghost use Rattle.tta_arch.specs.Effects.{KeptReg, width_of};
ghost use Rattle.tta_arch.specs.Fields.{numbers};
ghost use Rattle.tta_arch.specs.Layout.{fields_of};
ghost use Rattle.tta_circuit.specs.Circuit as c;
ghost use Rattle.tta_hardware.specs.Signals as s;
ghost use Rattle.tta_hardware.specs.Registers as r;
ghost use Rattle.tta_names.specs.Names.{text_of};
ghost use Rattle.tta_rtl.specs.Kept.{brought, cut, file_line, registers_of_file, registers_of_imm};
ghost use Rattle.tta_rtl.specs.Texts.{register_start, registers_text};

use crate::buses::has_one_bit;
use crate::longs::push_imms_from;
use crate::on::On;
use crate::reach::push_hits;
use std::alloc::AllocError;
use tta_arch::{BusFields, Dest, File, Machine, is_dest_on};
use tta_names::{push_of_bus, push_register};
use tta_verilog::{push_part_select, push_range, push_text};

/// Puts how the line of a register begins: where it is declared, how many bits it has, and else when it
/// takes a word.
#[tactic(auto, unfolding(crate::specs::Texts::register_start))]
pub fn start_register(
    out: &mut Vec<u8>,
    declares: bool,
    width: u32,
    restarts: bool,
) -> Result<(), AllocError>
    ensures { OnOk result
        (out.new.items ≡ out.old.items ++ register_start declares width restarts) }
{
    if declares {
        push_text(out, b"reg ")?;
        return push_range(out, width);
    }
    if restarts {
        push_text(out, b"always @(posedge clk) if ((reset)||(n_goes)) ")
    } else {
        push_text(out, b"always @(posedge clk) if (n_goes) ")
    }
}

/// How many bits the registers of a file have, and 32 where the machine has no such file.
fn width_of(m: &Machine, file: u8) -> u8
    ensures { result ≡ width_of m.now file }
{
    match m.files.as_slice().get(usize::from(file)) {
        None => 32,
        Some(f) => f.width,
    }
}

/// Puts the word of a bus, or its lowest bit.
#[tactic(auto, unfolding(tta_verilog::specs::Expressions::part))]
fn push_cut(out: &mut Vec<u8>, m: &Machine, bus: usize, one_bit: bool) -> Result<(), AllocError>
    ensures { let T = text_of m.now in
        OnOk result (out.new.items ≡ out.old.items ++ T (cut one_bit (c.Signal (s.Word bus)))) }
{
    if !one_bit {
        return push_of_bus(out, m, b"bus_", bus);
    }
    push_of_bus(out, m, b"bus_", bus)?;
    push_part_select(out, 0, 1)
}

/// Puts whether the move of a bus brings its word to a register of a file, and that word, as a choice begins;
/// nothing where the bus does not lead there.
#[tactic(auto, unfolding(crate::specs::Texts::choice_start, crate::specs::Kept::brought))]
fn push_brought(
    out: &mut Vec<u8>,
    on: &On<'_>,
    bus: usize,
    f: &BusFields,
    dst: Dest,
    one_bit: bool,
) -> Result<(), AllocError>
    requires { f.now ≡ fields_of on.now.m.now bus }
    ensures { OnOk result (out.new.items ≡ out.old.items ++ brought on.now.m.now dst one_bit bus) }
{
    if !is_dest_on(on.m, bus, dst) {
        return Ok(());
    }
    push_text(out, b"(")?;
    push_hits(out, on, bus, f, dst)?;
    push_text(out, b")?(")?;
    push_cut(out, on.m, bus, one_bit)?;
    push_text(out, b"):")
}

/// Puts what some buses bring to a register of a file, each after the test whether it does.
fn push_brought_from(
    out: &mut Vec<u8>,
    on: &On<'_>,
    bus: usize,
    buses: &[BusFields],
    dst: Dest,
    one_bit: bool,
) -> Result<(), AllocError>
    requires room { bus + length buses.now < 2 ^ 64 }
    requires fields { buses.now ≡ map (fields_of on.now.m.now)
        (range_with_len bus (length buses.now)) }
    ensures { OnOk result (out.new.items ≡ out.old.items
        ++ flat_map (brought on.now.m.now dst one_bit) (range_with_len bus (length buses.now))) }
{
    match buses {
        [] => Ok(()),
        [f, rest @ ..] => {
            push_brought(out, on, bus, f, dst, one_bit)?;
            push_brought_from(out, on, bus + 1, rest, dst, one_bit)
        }
    }
}

/// Puts what all buses bring to a register of a file.
#[tactic(auto, using(crate::proofs::Layouts::layout_fields, crate::proofs::Layouts::layout_count))]
fn push_all_brought(
    out: &mut Vec<u8>,
    on: &On<'_>,
    dst: Dest,
    one_bit: bool,
) -> Result<(), AllocError>
    ensures { let M = on.now.m.now in
        OnOk result (out.new.items ≡ out.old.items
        ++ flat_map (brought M dst one_bit) (numbers (length M.buses))) }
{
    push_brought_from(out, on, 0, on.layout.buses.as_slice(), dst, one_bit)
}

/// Puts what a register of a file keeps from now on.
#[tactic(auto, using(crate::proofs::RegisterTexts::file_next))]
fn push_file_next(out: &mut Vec<u8>, on: &On<'_>, file: u8, index: u8) -> Result<(), AllocError>
    ensures { let T = text_of on.now.m.now in
        OnOk result (out.new.items ≡ out.old.items
        ++ T (r.kept_next on.now.m.now (KeptReg file index))) }
{
    let one_bit = has_one_bit(on.m, file);
    push_all_brought(out, on, Dest::Reg { file, index }, one_bit)?;
    push_register(out, on.m, file, index)
}

/// Puts a register of a file.
#[tactic(auto, unfolding(crate::specs::Texts::register_rest, crate::specs::Kept::file_line))]
fn push_file_register(
    out: &mut Vec<u8>,
    on: &On<'_>,
    declares: bool,
    file: u8,
    index: u8,
) -> Result<(), AllocError>
    ensures { OnOk result
        (out.new.items ≡ out.old.items ++ file_line on.now.m.now declares file index) }
{
    start_register(out, declares, u32::from(width_of(on.m, file)), false)?;
    push_register(out, on.m, file, index)?;
    if declares {
        return push_text(out, b";\n");
    }
    push_text(out, b" <= ")?;
    push_file_next(out, on, file, index)?;
    push_text(out, b";\n")
}

/// Puts the lines of so many registers of a file.
fn push_file_lines(
    out: &mut Vec<u8>,
    on: &On<'_>,
    declares: bool,
    file: u8,
    size: u8,
) -> Result<(), AllocError>
    ensures { OnOk result (out.new.items ≡ out.old.items
        ++ flat_map (file_line on.now.m.now declares file) (numbers size)) }
{
    for index in 0..size {
        push_file_register(out, on, declares, file, index)?;
    }
    Ok(())
}

/// Puts so many registers of a file.
fn push_file(
    out: &mut Vec<u8>,
    on: &On<'_>,
    declares: bool,
    file: u8,
    size: u8,
) -> Result<(), AllocError>
    ensures { OnOk result (out.new.items ≡ out.old.items
        ++ registers_text on.now.m.now declares (registers_of_file file size)) }
{
    push_file_lines(out, on, declares, file, size)
}

/// Puts the registers of files, from one on.
fn push_files_from(
    out: &mut Vec<u8>,
    on: &On<'_>,
    declares: bool,
    file: u8,
    files: &[File],
) -> Result<(), AllocError>
    requires { file + length files.now ≤ 255 }
    ensures { OnOk result (out.new.items ≡ out.old.items
        ++ registers_text on.now.m.now declares
        (flat_map (λ f. registers_of_file f.0 f.1.size) (enumerate_from file files.now))) }
{
    match files {
        [] => Ok(()),
        [f, rest @ ..] => {
            push_file(out, on, declares, file, f.size)?;
            push_files_from(out, on, declares, file + 1, rest)
        }
    }
}

/// Puts the registers of files and of immediate units.
pub fn push_kept(out: &mut Vec<u8>, on: &On<'_>, declares: bool) -> Result<(), AllocError>
    ensures { let M = on.now.m.now in
        OnOk result (out.new.items ≡ out.old.items ++ registers_text M declares
        (flat_map (λ f. registers_of_file f.0 f.1.size) (enumerate_from 0 M.files)
        ++ flat_map (λ i. registers_of_imm i.0 i.1.size) (enumerate_from 0 M.imms))) }
{
    let m = on.m;
    push_files_from(out, on, declares, 0, m.files.as_slice())?;
    push_imms_from(out, on, declares, 0, m.imms.as_slice())
}
