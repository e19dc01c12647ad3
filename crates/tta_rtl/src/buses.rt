//! What the buses carry.

ghost use Rattle.std.specs.Prelude.{◌≡◌, ◌+◌, ◌<◌, ◌^◌, ◌==◌, ◌++◌, codes, map, length, OnOk};
ghost use Rattle.std.specs.List.{flat_map, range_with_len};
ghost use Rattle.tta_arch.specs.Effects.{width_of};
ghost use Rattle.tta_arch.specs.Fields.{numbers};
ghost use Rattle.tta_arch.specs.Layout.{fields_of};
ghost use Rattle.tta_arch.specs.declared.ends.Source.TheVariants as source;
ghost use Rattle.tta_circuit.specs.Circuit as c;
ghost use Rattle.tta_hardware.specs.Signals as s;
ghost use Rattle.tta_hardware.specs.Chains.{pick_from};
ghost use Rattle.tta_hardware.specs.Wires as w;
ghost use Rattle.tta_hardware.specs.Hardware.{bus_wires, wire};
ghost use Rattle.tta_names.specs.Names.{bus_name, names_of, text_of};
ghost use Rattle.tta_rtl.specs.Texts.{wires_text};
ghost use Rattle.tta_verilog.specs.Circuits.{wire_text};
ghost use Rattle.tta_verilog.specs.Expressions.{between, constant};

use crate::on::On;
use std::alloc::AllocError;
use tta_arch::{BusFields, Guard, GuardRef, Machine, Source};
use tta_names::{push_immediate, push_of_bus, push_of_unit, push_register};
use tta_verilog::{push_constant, push_range, push_text};

/// Puts the test that a field of a bus has a code.
#[tactic(auto, unfolding(tta_verilog::specs::Expressions::between))]
pub fn push_is_code(
    out: &mut Vec<u8>,
    m: &Machine,
    what: &[u8],
    bus: usize,
    width: u32,
    code: u64,
) -> Result<(), AllocError>
    ensures { OnOk result (out.new.items ≡ out.old.items
        ++ between (codes "==") (what.now ++ bus_name m.now bus) (constant width code)) }
{
    push_text(out, b"(")?;
    push_of_bus(out, m, what, bus)?;
    push_text(out, b")==(")?;
    push_constant(out, width, code)?;
    push_text(out, b")")
}

/// Whether a file's registers have one bit.
pub fn has_one_bit(m: &Machine, file: u8) -> bool
    ensures { result ≡ (width_of m.now file == 1) }
{
    match m.files.as_slice().get(usize::from(file)) {
        None => false,
        Some(f) => f.width == 1,
    }
}

/// Puts a register of a file as a word.
#[tactic(auto, unfolding(tta_verilog::specs::Expressions::joined))]
fn push_register_word(out: &mut Vec<u8>, on: &On<'_>, file: u8, index: u8) -> Result<(), AllocError>
    ensures { let T = text_of on.now.m.now in
        OnOk result (out.new.items ≡ out.old.items ++ T (w.source_word on.now.m.now (source.Reg file index))) }
{
    if has_one_bit(on.m, file) {
        push_text(out, b"{")?;
        push_constant(out, 31, 0)?;
        push_text(out, b",")?;
        push_register(out, on.m, file, index)?;
        push_text(out, b"}")
    } else {
        push_register(out, on.m, file, index)
    }
}

/// Puts the word of a source that is no short word.
fn push_source(out: &mut Vec<u8>, on: &On<'_>, src: Source) -> Result<(), AllocError>
    ensures { let T = text_of on.now.m.now in
        OnOk result (out.new.items ≡ out.old.items ++ T (w.source_word on.now.m.now src)) }
{
    match src {
        Source::Reg { file, index } => push_register_word(out, on, file, index),
        Source::Imm { unit, index } => push_immediate(out, on.m, unit, index),
        Source::Shown { unit } => push_of_unit(out, on.m, b"shown_", unit),
        Source::Ra => push_text(out, b"n_ra"),
        Source::Value(_) => push_constant(out, 32, 0),
    }
}

/// Puts the word of the source whose code stands in a bus's field, the first of these having the
/// code k.
#[tactic(auto, unfolding(tta_verilog::specs::Expressions::choice))]
fn pick_source(
    out: &mut Vec<u8>,
    on: &On<'_>,
    bus: usize,
    width: u32,
    k: u64,
    sources: &[Source],
) -> Result<(), AllocError>
    requires { k + length sources.now < 2 ^ 64 }
    ensures { let T = text_of on.now.m.now in
        OnOk result (out.new.items ≡ out.old.items ++ T (pick_from width (c.Signal (s.Fetched (s.SourceOf bus))) k
        (map (w.source_word on.now.m.now) sources.now) w.nothing)) }
{
    match sources {
        [] => push_constant(out, 32, 0),
        [src, rest @ ..] => {
            push_text(out, b"(")?;
            push_is_code(out, on.m, b"source_", bus, width, k)?;
            push_text(out, b")?(")?;
            push_source(out, on, *src)?;
            push_text(out, b"):")?;
            pick_source(out, on, bus, width, k + 1, rest)
        }
    }
}

/// Puts the word of a bus.
#[tactic(auto, unfolding(tta_verilog::specs::Expressions::choice))]
pub fn push_bus_word(
    out: &mut Vec<u8>,
    on: &On<'_>,
    bus: usize,
    f: &BusFields,
) -> Result<(), AllocError>
    requires { f.now ≡ fields_of on.now.m.now bus }
    ensures { let T = text_of on.now.m.now in
        OnOk result (out.new.items ≡ out.old.items ++ T (w.bus_word on.now.m.now bus)) }
{
    push_text(out, b"(")?;
    push_of_bus(out, on.m, b"tag_", bus)?;
    push_text(out, b")?(")?;
    push_of_bus(out, on.m, b"short_", bus)?;
    push_text(out, b"):")?;
    pick_source(out, on, bus, f.payload_width, 0, f.sources.as_slice())
}

/// Puts whether a guard lets its move act.
#[tactic(auto, unfolding(tta_verilog::specs::Expressions::negated))]
fn push_passing(out: &mut Vec<u8>, on: &On<'_>, g: GuardRef) -> Result<(), AllocError>
    ensures { let T = text_of on.now.m.now in
        OnOk result (out.new.items ≡ out.old.items ++ T (w.passing g)) }
{
    if g.inverted {
        push_text(out, b"!(")?;
        push_register(out, on.m, g.file, g.index)?;
        push_text(out, b")")
    } else {
        push_register(out, on.m, g.file, g.index)
    }
}

/// Puts whether the guard whose code stands in a bus's field lets a move act, the first of these
/// having the code k.
#[tactic(auto, unfolding(tta_verilog::specs::Expressions::choice))]
fn pick_guard(
    out: &mut Vec<u8>,
    on: &On<'_>,
    bus: usize,
    width: u32,
    k: u64,
    guards: &[Guard],
) -> Result<(), AllocError>
    requires { k + length guards.now < 2 ^ 64 }
    ensures { let T = text_of on.now.m.now in
        OnOk result (out.new.items ≡ out.old.items ++ T (pick_from width (c.Signal (s.Fetched (s.GuardOf bus))) k
        (map (λ g. w.passing g.on) guards.now) w.never)) }
{
    match guards {
        [] => push_constant(out, 1, 0),
        [g, rest @ ..] => {
            push_text(out, b"(")?;
            push_is_code(out, on.m, b"guard_", bus, width, k)?;
            push_text(out, b")?(")?;
            push_passing(out, on, g.on)?;
            push_text(out, b"):")?;
            pick_guard(out, on, bus, width, k + 1, rest)
        }
    }
}

/// Puts whether the move of a bus acts, if there is one.
#[tactic(auto, unfolding(tta_verilog::specs::Expressions::choice))]
pub fn push_bus_acts(
    out: &mut Vec<u8>,
    on: &On<'_>,
    bus: usize,
    f: &BusFields,
) -> Result<(), AllocError>
    requires { f.now ≡ fields_of on.now.m.now bus }
    ensures { let T = text_of on.now.m.now in
        OnOk result (out.new.items ≡ out.old.items ++ T (w.bus_acts on.now.m.now bus)) }
{
    if f.guard_width == 0 {
        return push_constant(out, 1, 1);
    }
    push_text(out, b"(")?;
    push_is_code(out, on.m, b"guard_", bus, f.guard_width, 0)?;
    push_text(out, b")?(")?;
    push_constant(out, 1, 1)?;
    push_text(out, b"):")?;
    pick_guard(out, on, bus, f.guard_width, 1, f.guards.as_slice())
}

/// Puts the wire that says whether the move of a bus acts.
#[tactic(auto, unfolding(tta_verilog::specs::Circuits::wire_line))]
fn push_acts_wire(
    out: &mut Vec<u8>,
    on: &On<'_>,
    bus: usize,
    f: &BusFields,
) -> Result<(), AllocError>
    requires { f.now ≡ fields_of on.now.m.now bus }
    ensures { OnOk result (out.new.items ≡ out.old.items
        ++ wire_text (names_of on.now.m.now) (wire on.now.m.now (s.Acts bus))) }
{
    push_text(out, b"wire ")?;
    push_range(out, 1)?;
    push_of_bus(out, on.m, b"acts_", bus)?;
    push_text(out, b" = ")?;
    push_bus_acts(out, on, bus, f)?;
    push_text(out, b";\n")
}

/// Puts the wire of the word of a bus.
#[tactic(auto, unfolding(tta_verilog::specs::Circuits::wire_line))]
fn push_word_wire(
    out: &mut Vec<u8>,
    on: &On<'_>,
    bus: usize,
    f: &BusFields,
) -> Result<(), AllocError>
    requires { f.now ≡ fields_of on.now.m.now bus }
    ensures { OnOk result (out.new.items ≡ out.old.items
        ++ wire_text (names_of on.now.m.now) (wire on.now.m.now (s.Word bus))) }
{
    push_text(out, b"wire ")?;
    push_range(out, 32)?;
    push_of_bus(out, on.m, b"bus_", bus)?;
    push_text(out, b" = ")?;
    push_bus_word(out, on, bus, f)?;
    push_text(out, b";\n")
}

/// Puts the wires of buses, from one on.
fn push_buses_from(
    out: &mut Vec<u8>,
    on: &On<'_>,
    bus: usize,
    buses: &[BusFields],
) -> Result<(), AllocError>
    requires room { bus + length buses.now < 2 ^ 64 }
    requires fields { buses.now ≡ map (fields_of on.now.m.now)
        (range_with_len bus (length buses.now)) }
    ensures { OnOk result (out.new.items ≡ out.old.items ++ wires_text on.now.m.now
        (flat_map bus_wires (range_with_len bus (length buses.now)))) }
{
    match buses {
        [] => Ok(()),
        [f, rest @ ..] => {
            push_acts_wire(out, on, bus, f)?;
            push_word_wire(out, on, bus, f)?;
            push_buses_from(out, on, bus + 1, rest)
        }
    }
}

/// Puts the wires of all buses.
#[tactic(auto, using(crate::proofs::Layouts::layout_fields))]
pub fn push_buses(out: &mut Vec<u8>, on: &On<'_>) -> Result<(), AllocError>
    ensures { OnOk result (out.new.items ≡ out.old.items ++ wires_text on.now.m.now
        (flat_map bus_wires (numbers (length on.now.layout.now.buses)))) }
{
    push_buses_from(out, on, 0, on.layout.buses.as_slice())
}
