//! The module of a machine with its code that leaves long operations to modules, and these modules.

ghost use Rattle.std.specs.Prelude.{◌≡◌, ◌++◌, true, IfOk, OnOk};
ghost use Rattle.tta_boxed.specs.Boxed.{boxed};
ghost use Rattle.tta_boxed_rtl.specs.Beside.{dividers_text};
ghost use Rattle.tta_boxed_rtl.specs.Left as l;
ghost use Rattle.tta_boxed_rtl.specs.Module as p;
ghost use Rattle.tta_boxed_rtl.specs.Parts as q;
ghost use Rattle.tta_code.specs.Legal.{IsLegalCode};
ghost use Rattle.tta_code.specs.Whole.{fits};
ghost use Rattle.tta_ops.specs.Set.{stated};
ghost use Rattle.tta_rtl.specs.Memories.{words_in};

use crate::at::{At, leaves_of};
use crate::dividers::push_dividers;
use crate::functions::push_functions;
use crate::left::{Left, all_left};
use crate::modules::{push_made_lines, push_module_lines};
use crate::registers::push_registers;
use std::alloc::{AllocError, Global};
use tta_arch::{Layout, Machine, Op};
use tta_code::Whole;
use tta_ops::UnitSet;
use tta_rtl::{
    Core, On, Rom, code_bytes, first_words, offers, push_memories, push_stores, push_wires,
};
use tta_trap_rtl::push_all_wires;

/// A module that is to be made of a machine with its operations.
#[derive(Clone, Copy)]
pub struct Wanted<'a> {
    pub m: &'a Machine,
    pub units: &'a UnitSet,
    pub rom: Rom,
    /// Whether it tells the first fault, and stops there.
    pub faults: bool,
}

/// A circuit with what it leaves to modules.
#[derive(Clone, Copy)]
struct Boxed<'a> {
    core: &'a Core<'a>,
    faults: bool,
    leaves: &'a [bool],
    left: &'a [Left],
    ghost left_is: { l.lefts left.now ≡ l.all_left core.now.on.now.m.now (l.told_by leaves.now) },
}

/// Puts all wires, with code of so many instructions.
fn push_all(
    alloc: Global,
    out: &mut Vec<u8>,
    on: &On<'_>,
    faults: bool,
    words: usize,
) -> Result<(), AllocError>
    ensures { OnOk result
        (out.new.items ≡ out.old.items ++ q.wires_lines on.now.m.now faults words) }
{
    if faults {
        push_all_wires(alloc, out, on, words)
    } else {
        push_wires(alloc, out, on)
    }
}

/// Puts the memories, the functions, and what modules show.
fn push_first_parts(out: &mut Vec<u8>, of: &Boxed<'_>) -> Result<(), AllocError>
    ensures { let M = of.now.core.now.on.now.m.now in let L = l.told_by of.now.leaves.now in
        let U = stated unit_meaning of.now.core.now.units.now in
        let WORDS = words_in M of.now.core.now.body.now of.now.core.now.words in
        OnOk result (out.new.items ≡ out.old.items ++ q.first_parts U M of.now.core.now.rom L WORDS
        of.now.core.now.first.now) }
{
    let core = of.core;
    let at = At {
        on: core.on,
        leaves: of.leaves,
    };
    push_memories(out, core)?;
    push_functions(out, &at, core.units)?;
    push_made_lines(out, core.on.m, of.left)
}

/// Puts all registers: how many bits each has, and else what each becomes.
fn push_all_registers(out: &mut Vec<u8>, of: &Boxed<'_>, declares: bool) -> Result<(), AllocError>
    ensures { let M = of.now.core.now.on.now.m.now in let L = l.told_by of.now.leaves.now in
        OnOk result (out.new.items ≡ out.old.items ++ q.registers_lines M L of.now.faults declares) }
{
    let at = At {
        on: of.core.on,
        leaves: of.leaves,
    };
    push_registers(out, &at, of.faults, declares, of.left)
}

/// Puts the parts of the circuit.
fn push_parts(alloc: Global, out: &mut Vec<u8>, of: &Boxed<'_>) -> Result<(), AllocError>
    ensures { let M = of.now.core.now.on.now.m.now in let L = l.told_by of.now.leaves.now in
        let U = stated unit_meaning of.now.core.now.units.now in
        let WORDS = words_in M of.now.core.now.body.now of.now.core.now.words in
        OnOk result (out.new.items ≡ out.old.items ++ p.core_text U M of.now.core.now.rom L
        (boxed M L (q.circuit_by of.now.faults M of.now.core.now.words WORDS
        of.now.core.now.first.now))) }
{
    let core = of.core;
    push_all_registers(out, of, true)?;
    push_first_parts(out, of)?;
    push_all(alloc, out, core.on, of.faults, core.words)?;
    push_module_lines(out, core.on, core.units, of.left)?;
    push_all_registers(out, of, false)?;
    push_stores(alloc, out, core.on.m)
}

/// Puts what stands before the parts of the circuit.
fn push_before(
    out: &mut Vec<u8>,
    on: &On<'_>,
    faults: bool,
    gives: bool,
    takes: bool,
) -> Result<(), AllocError>
    ensures { OnOk result
        (out.new.items ≡ out.old.items ++ p.before_text on.now.m.now faults gives takes) }
{
    if faults {
        tta_trap_rtl::push_before(out, on, gives, takes)
    } else {
        tta_rtl::push_before(out, on, b"tta_core", gives, takes)
    }
}

/// Puts what the ports show.
fn push_shown(
    out: &mut Vec<u8>,
    m: &Machine,
    faults: bool,
    gives: bool,
    takes: bool,
) -> Result<(), AllocError>
    ensures { OnOk result
        (out.new.items ≡ out.old.items ++ p.shown_text m.now faults gives takes) }
{
    if faults {
        tta_trap_rtl::push_shown(out, m, gives, takes)
    } else {
        tta_rtl::push_shown(out, gives, takes)
    }
}

/// Puts the module.
fn push_module(alloc: Global, out: &mut Vec<u8>, of: &Boxed<'_>) -> Result<(), AllocError>
    ensures { let M = of.now.core.now.on.now.m.now in let L = l.told_by of.now.leaves.now in
        let U = stated unit_meaning of.now.core.now.units.now in
        let WORDS = words_in M of.now.core.now.body.now of.now.core.now.words in
        OnOk result (out.new.items ≡ out.old.items
        ++ p.module_text U M of.now.core.now.rom of.now.faults L
        (boxed M L (q.circuit_by of.now.faults M of.now.core.now.words WORDS
        of.now.core.now.first.now))) }
{
    let core = of.core;
    let m = core.on.m;
    let gives = offers(alloc, m, Op::Out)?;
    let takes = offers(alloc, m, Op::Take)?;
    push_before(out, core.on, of.faults, gives, takes)?;
    push_parts(alloc, out, of)?;
    push_shown(out, m, of.faults, gives, takes)
}

/// Puts the module, and those that divide.
fn push_modules(alloc: Global, out: &mut Vec<u8>, of: &Boxed<'_>) -> Result<(), AllocError>
    ensures { let M = of.now.core.now.on.now.m.now in let L = l.told_by of.now.leaves.now in
        let U = stated unit_meaning of.now.core.now.units.now in
        let WORDS = words_in M of.now.core.now.body.now of.now.core.now.words in
        OnOk result (out.new.items ≡ out.old.items
        ++ (p.module_text U M of.now.core.now.rom of.now.faults L
        (boxed M L (q.circuit_by of.now.faults M of.now.core.now.words WORDS
        of.now.core.now.first.now)) ++ dividers_text U M L)) }
{
    let core = of.core;
    push_module(alloc, out, of)?;
    push_dividers(alloc, out, core.on.m, core.units, of.left)
}

/// The text of the circuit of a machine with the code and data of an image that leaves long operations
/// to modules beside it, as a module of Verilog, and the modules that divide. The words of code stand in
/// it, or in the file `code.hex`.
pub fn write_boxed_rtl(
    alloc: Global,
    wanted: &Wanted<'_>,
    digest: &[u8; 32],
    whole: &Whole,
) -> Result<Vec<u8>, AllocError>
    requires legal { IsLegalCode wanted.now.m.now whole.now.code }
    requires data { fits wanted.now.m.now.data_words whole.now.init ≡ true }
    ensures { let U = stated unit_meaning wanted.now.units.now in
        IfOk result (λ v. v.items
        ≡ p.boxed_rtl_of U wanted.now.m.now wanted.now.rom wanted.now.faults whole.now) }
{
    let m = wanted.m;
    m.rules();
    let layout = Layout::of(alloc, m)?;
    let on = On { m, layout: &layout };
    let body = code_bytes(alloc, &on, digest, whole)?;
    let first = first_words(alloc, m, whole)?;
    let core = Core {
        on: &on,
        units: wanted.units,
        rom: wanted.rom,
        words: whole.code.words.len(),
        body: body.as_slice(),
        first: first.as_slice(),
    };
    let leaves = leaves_of(alloc, wanted.units)?;
    let at = At {
        on: &on,
        leaves: leaves.as_slice(),
    };
    let left = all_left(alloc, &at)?;
    let of = Boxed {
        core: &core,
        faults: wanted.faults,
        leaves: at.leaves,
        left: left.as_slice(),
    };
    let mut out = Vec::new(alloc);
    push_modules(alloc, &mut out, &of)?;
    Ok(out)
}
