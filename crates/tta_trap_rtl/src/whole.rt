//! The module of a machine with its code that tells the first fault.

ghost use Rattle.std.specs.Prelude.{◌≡◌, ◌++◌, true, IfOk, OnOk};
ghost use Rattle.tta_code.specs.Legal.{IsLegalCode};
ghost use Rattle.tta_code.specs.Whole.{fits};
ghost use Rattle.tta_ops.specs.Set.{stated};
ghost use Rattle.tta_rtl.specs.Memories.{words_in};
ghost use Rattle.tta_rtl.specs.Module.{core_text};
ghost use Rattle.tta_rtl.specs.Texts.{wires_text};
ghost use Rattle.tta_trap.specs.Trap as t;
ghost use Rattle.tta_trap.specs.Watches.{watch_wires};
ghost use Rattle.tta_trap_rtl.specs.Module as p;
ghost use Rattle.tta_trap_rtl.specs.Texts.{late_text, trap_registers_text, trap_wires_text};

use crate::fault::push_fault;
use crate::findings::push_unit_watches;
use crate::lacks::push_bus_watches;
use crate::late::push_goes;
use crate::pins::{push_before, push_shown};
use crate::watching::push_watches;
use std::alloc::{AllocError, Global};
use tta_arch::{Layout, Machine, Op};
use tta_code::Whole;
use tta_ops::UnitSet;
use tta_rtl::{
    Core, On, Rom, code_bytes, first_words, offers, push_buses, push_fields, push_functions,
    push_memories, push_outcome, push_ports, push_registers, push_steering, push_stores,
    push_units,
};

/// Puts all registers: how many bits each has, and else what each becomes.
fn push_all_registers(out: &mut Vec<u8>, on: &On<'_>, declares: bool) -> Result<(), AllocError>
    ensures { OnOk result
        (out.new.items ≡ out.old.items ++ trap_registers_text on.now.m.now declares) }
{
    push_registers(out, on, declares)?;
    push_watches(out, on, declares)
}

/// Puts the wires before those that tell faults.
fn push_early_wires(alloc: Global, out: &mut Vec<u8>, on: &On<'_>) -> Result<(), AllocError>
    ensures { let M = on.now.m.now in
        OnOk result (out.new.items ≡ out.old.items ++ wires_text M (t.early_wires M)) }
{
    push_fields(out, on)?;
    push_ports(out, on)?;
    push_buses(out, on)?;
    push_units(out, on)?;
    push_steering(alloc, out, on)
}

/// Puts the wires that tell faults, with code of so many instructions.
fn push_watch_wires(out: &mut Vec<u8>, on: &On<'_>, words: usize) -> Result<(), AllocError>
    ensures { let M = on.now.m.now in OnOk result (out.new.items ≡ out.old.items
        ++ trap_wires_text M words (watch_wires M)) }
{
    push_bus_watches(out, on)?;
    push_unit_watches(out, on)?;
    push_fault(out, on, words)
}

/// Puts the wires after them.
fn push_late_wires(alloc: Global, out: &mut Vec<u8>, on: &On<'_>) -> Result<(), AllocError>
    ensures { OnOk result (out.new.items ≡ out.old.items ++ late_text on.now.m.now) }
{
    push_goes(out, on)?;
    push_outcome(alloc, out, on)
}

/// Puts all wires, with code of so many instructions.
pub fn push_all_wires(
    alloc: Global,
    out: &mut Vec<u8>,
    on: &On<'_>,
    words: usize,
) -> Result<(), AllocError>
    ensures { let M = on.now.m.now in OnOk result (out.new.items ≡ out.old.items
        ++ trap_wires_text M words (t.trap_wires M)) }
{
    push_early_wires(alloc, out, on)?;
    push_watch_wires(out, on, words)?;
    push_late_wires(alloc, out, on)
}

/// Puts the parts of the circuit, with the functions of its operations.
fn push_parts(alloc: Global, out: &mut Vec<u8>, core: &Core<'_>) -> Result<(), AllocError>
    ensures { let M = core.now.on.now.m.now in
        let WORDS = words_in M core.now.body.now core.now.words in
        OnOk result (out.new.items ≡ out.old.items ++ core_text
        (stated unit_meaning core.now.units.now) M core.now.rom
        (t.trap_with M core.now.words WORDS core.now.first.now)) }
{
    let on = core.on;
    push_all_registers(out, on, true)?;
    push_memories(out, core)?;
    push_functions(out, on.m, core.units)?;
    push_all_wires(alloc, out, on, core.words)?;
    push_all_registers(out, on, false)?;
    push_stores(alloc, out, on.m)
}

/// Puts the module with these ports.
fn push_module(
    alloc: Global,
    out: &mut Vec<u8>,
    core: &Core<'_>,
    gives: bool,
    takes: bool,
) -> Result<(), AllocError>
    ensures { let M = core.now.on.now.m.now in
        let WORDS = words_in M core.now.body.now core.now.words in
        OnOk result (out.new.items ≡ out.old.items ++ p.module_with
        (stated unit_meaning core.now.units.now) M core.now.rom gives takes
        (t.trap_with M core.now.words WORDS core.now.first.now)) }
{
    push_before(out, core.on, gives, takes)?;
    push_parts(alloc, out, core)?;
    push_shown(out, core.on.m, gives, takes)
}

/// The text of the circuit of a machine with the code and data of an image that tells the first fault, as a
/// module of Verilog. The words of code stand in it, or in the file `code.hex`.
pub fn write_trap(
    alloc: Global,
    m: &Machine,
    units: &UnitSet,
    rom: Rom,
    digest: &[u8; 32],
    whole: &Whole,
) -> Result<Vec<u8>, AllocError>
    requires legal { IsLegalCode m.now whole.now.code }
    requires data { fits m.now.data_words whole.now.init ≡ true }
    ensures { let U = stated unit_meaning units.now in
        IfOk result (λ v. v.items ≡ p.trap_rtl_of U m.now rom whole.now) }
{
    m.rules();
    let layout = Layout::of(alloc, m)?;
    let on = On { m, layout: &layout };
    let body = code_bytes(alloc, &on, digest, whole)?;
    let first = first_words(alloc, m, whole)?;
    let gives = offers(alloc, m, Op::Out)?;
    let takes = offers(alloc, m, Op::Take)?;
    let core = Core {
        on: &on,
        units,
        rom,
        words: whole.code.words.len(),
        body: body.as_slice(),
        first: first.as_slice(),
    };
    let mut out = Vec::new(alloc);
    push_module(alloc, &mut out, &core, gives, takes)?;
    Ok(out)
}
