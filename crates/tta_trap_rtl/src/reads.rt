//! Whether the source that a bus reads lacks a word.

ghost use Rattle.std.specs.Prelude.{◌≡◌, ◌+◌, ◌<◌, ◌^◌, ◌++◌, map, length, OnOk};
ghost use Rattle.tta_arch.specs.Layout.{fields_of};
ghost use Rattle.tta_circuit.specs.Circuit as c;
ghost use Rattle.tta_hardware.specs.Signals as s;
ghost use Rattle.tta_hardware.specs.Chains.{pick_from};
ghost use Rattle.tta_hardware.specs.Wires.{never};
ghost use Rattle.tta_names.specs.Names.{text_of};
ghost use Rattle.tta_trap.specs.Watches.{acts_on, of_source, port_lacks, register_lacks};
ghost use Rattle.tta_trap_rtl.specs.Texts.{lack_of};

use crate::names::push_lacks;
use std::alloc::AllocError;
use tta_arch::{BusFields, Machine, Source};
use tta_names::{Place, push_of_bus};
use tta_rtl::{On, push_is_code};
use tta_verilog::{push_constant, push_text};

/// What a move can read that lacks a word.
#[derive(Clone, Copy)]
pub enum Lack {
    /// A register that was never written.
    Register,
    /// A result port that has shown nothing.
    Port,
}

/// The sources of a bus, whose code has so many bits, and what is asked of the one that it reads.
#[derive(Clone, Copy)]
struct Look<'a> {
    on: &'a On<'a>,
    bus: usize,
    width: u32,
    lack: Lack,
}

/// Puts whether a source is a register that was never written.
fn push_register_lacks(out: &mut Vec<u8>, m: &Machine, src: Source) -> Result<(), AllocError>
    ensures { OnOk result (out.new.items ≡ out.old.items ++ text_of m.now (register_lacks src)) }
{
    match src {
        Source::Reg { file, index } => push_lacks(out, m, Place::Reg { file, index }),
        Source::Imm { unit, index } => push_lacks(out, m, Place::Imm { unit, index }),
        Source::Ra => push_lacks(out, m, Place::Ra),
        Source::Shown { .. } | Source::Value(_) => push_constant(out, 1, 0),
    }
}

/// Puts whether a source is a result port that has shown nothing.
fn push_port_lacks(out: &mut Vec<u8>, m: &Machine, src: Source) -> Result<(), AllocError>
    ensures { OnOk result (out.new.items ≡ out.old.items ++ text_of m.now (port_lacks src)) }
{
    match src {
        Source::Shown { unit } => push_lacks(out, m, Place::Port { unit }),
        Source::Reg { .. } | Source::Imm { .. } | Source::Ra | Source::Value(_) => {
            push_constant(out, 1, 0)
        }
    }
}

/// Puts whether a source lacks a word.
fn push_source_lacks(
    out: &mut Vec<u8>,
    m: &Machine,
    lack: Lack,
    src: Source,
) -> Result<(), AllocError>
    ensures { OnOk result (out.new.items ≡ out.old.items ++ text_of m.now (lack_of lack src)) }
{
    match lack {
        Lack::Register => push_register_lacks(out, m, src),
        Lack::Port => push_port_lacks(out, m, src),
    }
}

/// Puts whether the source lacks a word whose code stands in the bus's field, the first of these having
/// the code k.
#[tactic(auto, unfolding(tta_verilog::specs::Expressions::choice))]
fn pick_lacks(
    out: &mut Vec<u8>,
    look: &Look<'_>,
    k: u64,
    sources: &[Source],
) -> Result<(), AllocError>
    requires { k + length sources.now < 2 ^ 64 }
    ensures { let T = text_of look.now.on.now.m.now in
        OnOk result (out.new.items ≡ out.old.items ++ T (pick_from look.now.width
        (c.Signal (s.Fetched (s.SourceOf look.now.bus))) k
        (map (lack_of look.now.lack) sources.now) never)) }
{
    match sources {
        [] => push_constant(out, 1, 0),
        [src, rest @ ..] => {
            push_text(out, b"(")?;
            push_is_code(out, look.on.m, b"source_", look.bus, look.width, k)?;
            push_text(out, b")?(")?;
            push_source_lacks(out, look.on.m, look.lack, *src)?;
            push_text(out, b"):")?;
            pick_lacks(out, look, k + 1, rest)
        }
    }
}

/// Puts whether the source of a bus lacks a word; a short word never does.
#[tactic(auto, unfolding(tta_verilog::specs::Expressions::between, tta_verilog::specs::Expressions::negated))]
fn push_of_source(
    out: &mut Vec<u8>,
    on: &On<'_>,
    bus: usize,
    f: &BusFields,
    lack: Lack,
) -> Result<(), AllocError>
    requires { f.now ≡ fields_of on.now.m.now bus }
    ensures { let M = on.now.m.now in OnOk result
        (out.new.items ≡ out.old.items ++ text_of M (of_source M bus (lack_of lack))) }
{
    let width = f.payload_width;
    push_text(out, b"(!(")?;
    push_of_bus(out, on.m, b"tag_", bus)?;
    push_text(out, b"))&&(")?;
    let look = Look {
        on,
        bus,
        width,
        lack,
    };
    pick_lacks(out, &look, 0, f.sources.as_slice())?;
    push_text(out, b")")
}

/// Puts whether the move of a bus acts and reads a source that lacks a word.
#[tactic(auto, unfolding(tta_verilog::specs::Expressions::between))]
pub fn push_acts_on(
    out: &mut Vec<u8>,
    on: &On<'_>,
    bus: usize,
    f: &BusFields,
    lack: Lack,
) -> Result<(), AllocError>
    requires { f.now ≡ fields_of on.now.m.now bus }
    ensures { let M = on.now.m.now in OnOk result
        (out.new.items ≡ out.old.items ++ text_of M (acts_on M bus (lack_of lack))) }
{
    push_text(out, b"(")?;
    push_of_bus(out, on.m, b"acts_", bus)?;
    push_text(out, b")&&(")?;
    push_of_source(out, on, bus, f, lack)?;
    push_text(out, b")")
}
