//! What stands before the first cycle.

ghost use Rattle.std.specs.Prelude.{◌≡◌, ◌++◌, OnOk};
ghost use Rattle.tta_names.specs.Names.{signal_name};
ghost use Rattle.tta_waves.specs.Dump.{code_text, declaration_text, declarations_text};
ghost use Rattle.tta_waves.specs.Dump.{header_text};
ghost use Rattle.tta_waves.specs.Signals.{named, signals_of};

use crate::signal::{Signal, bits_of};
use std::alloc::AllocError;
use tta_arch::Machine;
use tta_names::{push_immediate, push_of_bus, push_of_op, push_of_unit, push_register};
use tta_verilog::push_number;

/// Puts the code of the signal with this number.
pub fn push_code(out: &mut Vec<u8>, number: usize) -> Result<(), AllocError>
    ensures { OnOk result (out.new.items ≡ out.old.items ++ code_text number) }
{
    out.extend_from_slice(b"s")?;
    push_number(out, number as u64)
}

/// Puts the name of a signal.
fn push_name(out: &mut Vec<u8>, m: &Machine, signal: Signal) -> Result<(), AllocError>
    ensures { OnOk result
        (out.new.items ≡ out.old.items ++ signal_name m.now (named signal)) }
{
    match signal {
        Signal::Address => out.extend_from_slice(b"n_pc"),
        Signal::Halted => out.extend_from_slice(b"n_halted"),
        Signal::Acts { bus } => push_of_bus(out, m, b"acts_", usize::from(bus)),
        Signal::Carried { bus } => push_of_bus(out, m, b"bus_", usize::from(bus)),
        Signal::Starts { unit, op } => push_of_op(out, m, b"start_", unit, op),
        Signal::Operand { unit } => push_of_unit(out, m, b"kept_", unit),
        Signal::Shown { unit } => push_of_unit(out, m, b"shown_", unit),
        Signal::Register { file, index } => push_register(out, m, file, index),
        Signal::Immediate { unit, index } => push_immediate(out, m, unit, index),
        Signal::ReturnAddress => out.extend_from_slice(b"n_ra"),
    }
}

/// Puts the declaration of a signal.
#[tactic(auto, unfolding(crate::specs::Dump::declaration_text))]
fn push_declaration(
    out: &mut Vec<u8>,
    m: &Machine,
    number: usize,
    signal: Signal,
) -> Result<(), AllocError>
    ensures { OnOk result
        (out.new.items ≡ out.old.items ++ declaration_text m.now number signal) }
{
    out.extend_from_slice(b"$var wire ")?;
    push_number(out, u64::from(bits_of(m, signal)))?;
    out.extend_from_slice(b" ")?;
    push_code(out, number)?;
    out.extend_from_slice(b" ")?;
    push_name(out, m, signal)?;
    out.extend_from_slice(b" $end\n")
}

/// Puts the declarations of signals.
fn push_declarations(out: &mut Vec<u8>, m: &Machine, signals: &[Signal]) -> Result<(), AllocError>
    ensures { OnOk result
        (out.new.items ≡ out.old.items ++ declarations_text m.now signals.now) }
{
    for (number, signal) in signals.iter().enumerate() {
        push_declaration(out, m, number, *signal)?;
    }
    Ok(())
}

/// Puts all that stands before the first cycle.
#[tactic(auto, unfolding(crate::specs::Dump::header_text))]
pub fn push_header(out: &mut Vec<u8>, m: &Machine, signals: &[Signal]) -> Result<(), AllocError>
    requires { signals.now ≡ signals_of m.now }
    ensures { OnOk result (out.new.items ≡ out.old.items ++ header_text m.now) }
{
    out.extend_from_slice(
        b"$version tta waves $end\n$timescale 1 ns $end\n$scope module tta_core $end\n",
    )?;
    push_declarations(out, m, signals)?;
    out.extend_from_slice(b"$upscope $end\n$enddefinitions $end\n")?;
    Ok(())
}
