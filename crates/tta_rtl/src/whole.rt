//! The module of a machine with its code.

ghost use Rattle.std.specs.Prelude.{◌≡◌, ◌*◌, ◌<◌, ◌≤◌, ◌^◌, ◌++◌, true, length, IfOk, OnOk};
ghost use Rattle.tta_arch.specs.Rules.{same_op};
ghost use Rattle.tta_code.specs.Legal.{IsLegalCode};
ghost use Rattle.tta_code.specs.Whole.{fits};
ghost use Rattle.tta_hardware.specs.Hardware as h;
ghost use Rattle.tta_ops.specs.Set.{stated};
ghost use Rattle.tta_rtl.specs.Memories.{words_in};
ghost use Rattle.tta_rtl.specs.Module as p;
ghost use Rattle.tta_rtl.specs.Texts.{registers_text, wires_text};

use crate::buses::push_buses;
use crate::bytes::code_bytes;
use crate::control::push_control;
use crate::fields::push_fields;
use crate::functions::push_functions;
use crate::on::On;
use crate::pins::{push_common_ports, push_head, push_in_ports, push_out_ports, push_shown};
use crate::pipes::push_pipes;
use crate::ports::push_ports;
use crate::registers::push_kept;
use crate::rom::{Rom, push_filed};
use crate::spaces::{push_code, push_empty_memory, push_memory, push_store};
use crate::states::push_states;
use crate::unit_wires::push_units;
use std::alloc::{AllocError, Global};
use tta_arch::{Layout, Machine, Op};
use tta_code::{Whole, lay};
use tta_offers::all_ops;
use tta_ops::UnitSet;
use tta_verilog::push_text;

/// A module that is to be made of a machine with its operations.
#[derive(Clone, Copy)]
pub struct Module<'a> {
    pub m: &'a Machine,
    pub units: &'a UnitSet,
    pub name: &'a [u8],
    /// Whether it has the ports of the output.
    pub gives: bool,
    /// Whether it has those of the input.
    pub takes: bool,
    /// The words that the data space begins with.
    pub first: &'a [u32],
    ghost sized: { length first.now ≡ m.now.data_words },
}

/// A machine with its operations, and what its memories begin with.
#[derive(Clone, Copy)]
pub struct Core<'a> {
    pub on: &'a On<'a>,
    pub units: &'a UnitSet,
    pub rom: Rom,
    /// How many instructions the code has.
    pub words: usize,
    /// The bytes of the instructions.
    pub body: &'a [u8],
    /// The words that the data space begins with.
    pub first: &'a [u32],
    ghost inside: { words * on.now.layout.now.width ≤ 8 * length body.now },
    ghost few: { 8 * length body.now < 2 ^ 64 },
    ghost sized: { length first.now ≡ on.now.m.now.data_words },
}

/// Puts all registers: how many bits each has, and else what each becomes.
pub fn push_registers(out: &mut Vec<u8>, on: &On<'_>, declares: bool) -> Result<(), AllocError>
    ensures { let M = on.now.m.now in
        OnOk result (out.new.items ≡ out.old.items
        ++ registers_text M declares (h.register_names M)) }
{
    push_kept(out, on, declares)?;
    push_pipes(out, on, declares)?;
    push_states(out, on, declares)
}

/// Puts all wires.
pub fn push_wires(alloc: Global, out: &mut Vec<u8>, on: &On<'_>) -> Result<(), AllocError>
    ensures { let M = on.now.m.now in
        OnOk result (out.new.items ≡ out.old.items ++ wires_text M (h.wire_names M)) }
{
    push_fields(out, on)?;
    push_ports(out, on)?;
    push_buses(out, on)?;
    push_units(out, on)?;
    push_control(alloc, out, on)
}

/// Puts the memory of the code.
fn push_rom(out: &mut Vec<u8>, core: &Core<'_>) -> Result<(), AllocError>
    ensures { let M = core.now.on.now.m.now in
        let WORDS = words_in M core.now.body.now core.now.words in
        OnOk result (out.new.items ≡ out.old.items ++ p.memory_of M core.now.rom (h.rom M WORDS)) }
{
    match core.rom {
        Rom::Text => push_code(out, core.on, core.words, core.body),
        Rom::File => push_filed(out, core.on),
    }
}

/// Puts the memories.
pub fn push_memories(out: &mut Vec<u8>, core: &Core<'_>) -> Result<(), AllocError>
    ensures { let M = core.now.on.now.m.now in
        let WORDS = words_in M core.now.body.now core.now.words in
        OnOk result (out.new.items ≡ out.old.items
        ++ p.memories_text M core.now.rom (h.circuit_with M WORDS core.now.first.now)) }
{
    let m = core.on.m;
    push_rom(out, core)?;
    push_memory(out, b"data", m.data_words, core.first)?;
    push_empty_memory(out, b"frame", m.frame_words)
}

/// Puts where one of the two spaces is written: by the units that store.
fn push_store_of(
    alloc: Global,
    out: &mut Vec<u8>,
    m: &Machine,
    name: &[u8],
    size: u32,
    store: Op,
) -> Result<(), AllocError>
    ensures { OnOk result (out.new.items ≡ out.old.items
        ++ p.store_line m.now name.now (h.store_port m.now size (same_op store))) }
{
    let stores = all_ops(alloc, m, store)?;
    push_store(out, m, name, size, stores.as_slice())
}

/// Puts where the two spaces are written.
pub fn push_stores(alloc: Global, out: &mut Vec<u8>, m: &Machine) -> Result<(), AllocError>
    ensures { OnOk result (out.new.items ≡ out.old.items ++ p.stores_text m.now) }
{
    push_store_of(alloc, out, m, b"data", m.data_words, Op::Stw)?;
    push_store_of(alloc, out, m, b"frame", m.frame_words, Op::Stf)
}

/// Puts the parts of the circuit, with the functions of its operations.
fn push_parts(alloc: Global, out: &mut Vec<u8>, core: &Core<'_>) -> Result<(), AllocError>
    ensures { let M = core.now.on.now.m.now in
        let WORDS = words_in M core.now.body.now core.now.words in
        OnOk result (out.new.items ≡ out.old.items ++ p.core_text
        (stated unit_meaning core.now.units.now) M core.now.rom
        (h.circuit_with M WORDS core.now.first.now)) }
{
    let on = core.on;
    push_registers(out, on, true)?;
    push_memories(out, core)?;
    push_functions(out, on.m, core.units)?;
    push_wires(alloc, out, on)?;
    push_registers(out, on, false)?;
    push_stores(alloc, out, on.m)
}

/// Whether some unit of the machine offers an operation.
pub fn offers(alloc: Global, m: &Machine, op: Op) -> Result<bool, AllocError>
    ensures { IfOk result (λ b. b ≡ p.offers m.now op) }
{
    let places = all_ops(alloc, m, op)?;
    Ok(!places.is_empty())
}

/// Puts what stands before the parts of the circuit.
pub fn push_before(
    out: &mut Vec<u8>,
    on: &On<'_>,
    name: &[u8],
    gives: bool,
    takes: bool,
) -> Result<(), AllocError>
    ensures { OnOk result
        (out.new.items ≡ out.old.items ++ p.before_parts on.now.m.now name.now gives takes) }
{
    push_head(out, name, gives, takes)?;
    push_common_ports(out, on)?;
    push_out_ports(out, gives)?;
    push_in_ports(out, takes)?;
    push_text(out, b"integer k;\n")
}

/// Puts the module of this name, with these ports.
fn push_module(
    alloc: Global,
    out: &mut Vec<u8>,
    core: &Core<'_>,
    name: &[u8],
    gives: bool,
    takes: bool,
) -> Result<(), AllocError>
    ensures { let M = core.now.on.now.m.now in
        let WORDS = words_in M core.now.body.now core.now.words in
        OnOk result (out.new.items ≡ out.old.items ++ p.module_with
        (stated unit_meaning core.now.units.now) M core.now.rom name.now gives takes
        (h.circuit_with M WORDS core.now.first.now)) }
{
    push_before(out, core.on, name, gives, takes)?;
    push_parts(alloc, out, core)?;
    push_shown(out, gives, takes)
}

/// The words that the data space begins with.
pub fn first_words(alloc: Global, m: &Machine, whole: &Whole) -> Result<Vec<u32>, AllocError>
    ensures { IfOk result (λ v. v.items ≡ p.first_words m.now whole.now) }
{
    let mut words = vec![in alloc; 0; m.data_words as usize]?;
    lay(whole.init.as_slice(), &mut words);
    Ok(words)
}

/// Puts the module of the circuit of a machine with code, whose words stand in the text or in a file.
fn push_circuit(
    alloc: Global,
    out: &mut Vec<u8>,
    wanted: &Module<'_>,
    rom: Rom,
    digest: &[u8; 32],
    whole: &Whole,
) -> Result<(), AllocError>
    requires legal { IsLegalCode wanted.now.m.now whole.now.code }
    requires data { fits wanted.now.m.now.data_words whole.now.init ≡ true }
    ensures { let U = stated unit_meaning wanted.now.units.now in
        let M = wanted.now.m.now in
        OnOk result (out.new.items ≡ out.old.items
        ++ p.module_with U M rom wanted.now.name.now wanted.now.gives wanted.now.takes
        (h.circuit_of M whole.now.code wanted.now.first.now)) }
{
    let m = wanted.m;
    m.rules();
    let layout = Layout::of(alloc, m)?;
    let on = On { m, layout: &layout };
    let body = code_bytes(alloc, &on, digest, whole)?;
    let core = Core {
        on: &on,
        units: wanted.units,
        rom,
        words: whole.code.words.len(),
        body: body.as_slice(),
        first: wanted.first,
    };
    push_module(alloc, out, &core, wanted.name, wanted.gives, wanted.takes)
}

/// Puts the module of the circuit of a machine with code. The data beside the code say nothing here;
/// what the data space begins with is the module's own.
pub fn push_core(
    alloc: Global,
    out: &mut Vec<u8>,
    wanted: &Module<'_>,
    digest: &[u8; 32],
    whole: &Whole,
) -> Result<(), AllocError>
    requires legal { IsLegalCode wanted.now.m.now whole.now.code }
    requires data { fits wanted.now.m.now.data_words whole.now.init ≡ true }
    ensures { let U = stated unit_meaning wanted.now.units.now in
        let M = wanted.now.m.now in
        OnOk result (out.new.items ≡ out.old.items
        ++ p.module_of U M wanted.now.name.now wanted.now.gives wanted.now.takes
        (h.circuit_of M whole.now.code wanted.now.first.now)) }
{
    push_circuit(alloc, out, wanted, Rom::Text, digest, whole)
}

/// The text of the circuit of a machine with the code and data of an image, as a module of Verilog. The
/// words of code stand in it, or in the file `code.hex`, of which `write_code_file` makes the text.
pub fn write_rtl(
    alloc: Global,
    m: &Machine,
    units: &UnitSet,
    rom: Rom,
    digest: &[u8; 32],
    whole: &Whole,
) -> Result<Vec<u8>, AllocError>
    requires legal { IsLegalCode m.now whole.now.code }
    requires data { fits m.now.data_words whole.now.init ≡ true }
    ensures { let U = stated unit_meaning units.now in
        IfOk result (λ v. v.items ≡ p.rtl_of U m.now rom whole.now) }
{
    let first = first_words(alloc, m, whole)?;
    let gives = offers(alloc, m, Op::Out)?;
    let takes = offers(alloc, m, Op::Take)?;
    let wanted = Module {
        m,
        units,
        name: b"tta_core",
        gives,
        takes,
        first: first.as_slice(),
    };
    let mut out = Vec::new(alloc);
    push_circuit(alloc, &mut out, &wanted, rom, digest, whole)?;
    Ok(out)
}
