//! The text of a circuit below what it is made of.

ghost use Rattle.std.specs.Prelude.{◌≡◌, ◌++◌, [], true, IfOk, OnOk};
ghost use Rattle.tta_arch.specs.Fields.{word_width};
ghost use Rattle.tta_code.specs.Legal.{IsLegalCode};
ghost use Rattle.tta_code.specs.Whole.{fits};
ghost use Rattle.tta_ops.specs.Set.{stated};
ghost use Rattle.tta_rtl.specs.Module as p;
ghost use Rattle.tta_rtl.specs.declared.rom.Rom.TheVariants as rom;
ghost use Rattle.tta_arch.specs.declared.parts.Op.TheVariants as op;
ghost use Rattle.tta_header.specs.Header as h;

use crate::features::Features;
use crate::lines::{push_code, push_file, push_image, push_machine, push_ports};
use std::alloc::{AllocError, Global};
use tta_arch::{Layout, Machine, Op};
use tta_boxed_rtl::{Wanted, write_boxed_rtl};
use tta_code::Whole;
use tta_image::write_image;
use tta_ops::UnitSet;
use tta_rtl::{Rom, offers, write_code_file, write_rtl};
use tta_trap_rtl::write_trap;
use tta_verilog::push_text;

/// A machine with the digest of its text, and code with data for it.
#[derive(Clone, Copy)]
pub struct Source<'a> {
    pub m: &'a Machine,
    pub digest: &'a [u8; 32],
    pub whole: &'a Whole,
}

/// How many bits an instruction has.
fn width_of(alloc: Global, m: &Machine) -> Result<u32, AllocError>
    ensures { IfOk result (λ w. w ≡ word_width m.now) }
{
    let layout = Layout::of(alloc, m)?;
    Ok(layout.width())
}

/// Puts the machine, the image and its code.
fn push_image_lines(
    alloc: Global,
    out: &mut Vec<u8>,
    of: &Source<'_>,
    image: &[u8],
) -> Result<(), AllocError>
    ensures { OnOk result (out.new.items ≡ out.old.items
        ++ h.image_lines of.now.m.now of.now.digest.now image.now of.now.whole.now) }
{
    let whole = of.whole;
    let width = width_of(alloc, of.m)?;
    push_machine(alloc, out, of.digest)?;
    push_image(alloc, out, image)?;
    push_code(out, whole.code.words.len(), width)
}

/// Puts the machine, that a file has the words of the code, and where the module tells faults, how many
/// of them are instructions.
fn push_file_lines(
    alloc: Global,
    out: &mut Vec<u8>,
    of: &Source<'_>,
    faults: bool,
) -> Result<(), AllocError>
    ensures { let M = of.now.m.now in
        OnOk result (out.new.items ≡ out.old.items
        ++ h.source_lines M of.now.digest.now rom.File faults [] of.now.whole.now) }
{
    let m = of.m;
    let whole = of.whole;
    let width = width_of(alloc, m)?;
    push_machine(alloc, out, of.digest)?;
    push_file(out, m.addresses(), width)?;
    if faults {
        push_code(out, whole.code.words.len(), width)?;
    }
    Ok(())
}

/// Puts what a module is made of.
fn push_source_lines(
    alloc: Global,
    out: &mut Vec<u8>,
    of: &Source<'_>,
    rom: Rom,
    faults: bool,
    image: &[u8],
) -> Result<(), AllocError>
    ensures { OnOk result (out.new.items ≡ out.old.items
        ++ h.source_lines of.now.m.now of.now.digest.now rom faults image.now of.now.whole.now) }
{
    match rom {
        Rom::Text => push_image_lines(alloc, out, of, image),
        Rom::File => push_file_lines(alloc, out, of, faults),
    }
}

/// Puts the ports that the module of a machine has.
fn push_ports_of(
    alloc: Global,
    out: &mut Vec<u8>,
    m: &Machine,
    faults: bool,
) -> Result<(), AllocError>
    ensures { OnOk result (out.new.items ≡ out.old.items
        ++ h.ports_line faults (p.offers m.now op.Out) (p.offers m.now op.Take)) }
{
    let gives = offers(alloc, m, Op::Out)?;
    let takes = offers(alloc, m, Op::Take)?;
    push_ports(out, faults, gives, takes)
}

/// The text of a module that does these things.
fn write_module(
    alloc: Global,
    units: &UnitSet,
    rom: Rom,
    features: Features,
    of: &Source<'_>,
) -> Result<Vec<u8>, AllocError>
    requires legal { IsLegalCode of.now.m.now of.now.whole.now.code }
    requires data { fits of.now.m.now.data_words of.now.whole.now.init ≡ true }
    ensures { let U = stated unit_meaning units.now in
        IfOk result (λ v. v.items ≡ h.module_of U of.now.m.now rom features of.now.whole.now) }
{
    if features.modules {
        let wanted = Wanted {
            m: of.m,
            units,
            rom,
            faults: features.faults,
        };
        return write_boxed_rtl(alloc, &wanted, of.digest, of.whole);
    }
    if features.faults {
        write_trap(alloc, of.m, units, rom, of.digest, of.whole)
    } else {
        write_rtl(alloc, of.m, units, rom, of.digest, of.whole)
    }
}

/// The text of the circuit of a machine with code and data as a module, with lines above it that tell the
/// machine, the image and the ports. The words of code stand in it, or in the file that `write_headed_file`
/// makes. With `faults` it tells the first fault and stops there, and with `modules` it leaves what takes
/// several cycles to modules beside it.
pub fn write_headed_rtl(
    alloc: Global,
    units: &UnitSet,
    rom: Rom,
    features: Features,
    of: &Source<'_>,
) -> Result<Vec<u8>, AllocError>
    requires legal { IsLegalCode of.now.m.now of.now.whole.now.code }
    requires data { fits of.now.m.now.data_words of.now.whole.now.init ≡ true }
    ensures { let U = stated unit_meaning units.now in
        let M = of.now.m.now in
        IfOk result (λ v. h.TellsImage M of.now.digest.now of.now.whole.now
        (λ image. h.headed_rtl U M of.now.digest.now rom features image of.now.whole.now) v.items) }
{
    let image = write_image(alloc, of.whole, of.m, of.digest)?;
    let mut out = Vec::new(alloc);
    push_source_lines(alloc, &mut out, of, rom, features.faults, image.as_slice())?;
    push_ports_of(alloc, &mut out, of.m, features.faults)?;
    let text = write_module(alloc, units, rom, features, of)?;
    push_text(&mut out, text.as_slice())?;
    Ok(out)
}

/// The file of the words of code, with lines above them that tell the machine and the image.
pub fn write_headed_file(alloc: Global, of: &Source<'_>) -> Result<Vec<u8>, AllocError>
    requires legal { IsLegalCode of.now.m.now of.now.whole.now.code }
    requires data { fits of.now.m.now.data_words of.now.whole.now.init ≡ true }
    ensures { let M = of.now.m.now in
        IfOk result (λ v. h.TellsImage M of.now.digest.now of.now.whole.now
        (λ image. h.headed_file M of.now.digest.now image of.now.whole.now) v.items) }
{
    let image = write_image(alloc, of.whole, of.m, of.digest)?;
    let mut out = Vec::new(alloc);
    push_image_lines(alloc, &mut out, of, image.as_slice())?;
    let text = write_code_file(alloc, of.m, of.digest, of.whole)?;
    push_text(&mut out, text.as_slice())?;
    Ok(out)
}
