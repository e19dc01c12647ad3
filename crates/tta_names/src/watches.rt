//! The names of what only a circuit has that stops at faults.

ghost use Rattle.std.specs.Prelude.{◌≡◌, ◌++◌, OnOk};
ghost use Rattle.tta_hardware.specs.Signals.{HasWord};
ghost use Rattle.tta_names.specs.Names.{place_name, watch_name};
ghost use Rattle.tta_names.specs.Watches.{place_of, watch_of};

use crate::names::{push_immediate, push_of_bus, push_of_unit, push_register};
use std::alloc::AllocError;
use tta_arch::Machine;
use tta_verilog::push_text;

/// A place that keeps a word from one move to the next.
#[derive(Clone, Copy)]
pub enum Place {
    /// A register of a file.
    Reg { file: u8, index: u8 },
    /// A register of an immediate unit.
    Imm { unit: u8, index: u8 },
    /// The operand port of a unit.
    Operand { unit: u8 },
    /// The return address.
    Ra,
    /// The result port of a unit.
    Port { unit: u8 },
}

/// What only a circuit has that stops at faults.
#[derive(Clone, Copy)]
pub enum Watch {
    /// Whether a place has had a word.
    HasWord(Place),
    /// Whether the address is past all that have the width of addresses.
    IsPast,
    /// Whether the move of a bus reads a register without a word.
    LacksRegister { bus: usize },
    /// Whether it reads a result port without one.
    LacksPort { bus: usize },
    /// Whether an operation of a unit starts without its operand.
    LacksOperand { unit: u8 },
    /// Whether one starts at whose end the unit has another result.
    Clashes { unit: u8 },
    /// The number of the fault that the next cycle meets, or 0.
    Fault,
}

/// Puts the name of a place that keeps a word.
fn push_place(out: &mut Vec<u8>, m: &Machine, place: Place) -> Result<(), AllocError>
    ensures { OnOk result
        (out.new.items ≡ out.old.items ++ place_name m.now (place_of place)) }
{
    match place {
        Place::Reg { file, index } => push_register(out, m, file, index),
        Place::Imm { unit, index } => push_immediate(out, m, unit, index),
        Place::Operand { unit } => push_of_unit(out, m, b"kept_", unit),
        Place::Ra => push_text(out, b"n_ra"),
        Place::Port { unit } => push_of_unit(out, m, b"result_", unit),
    }
}

/// Puts the name of what says whether a place has had a word.
fn push_has_word(out: &mut Vec<u8>, m: &Machine, place: Place) -> Result<(), AllocError>
    ensures { OnOk result
        (out.new.items ≡ out.old.items ++ watch_name m.now (HasWord (place_of place))) }
{
    push_text(out, b"has_")?;
    push_place(out, m, place)
}

/// Puts the name of what only a circuit has that stops at faults.
pub fn push_watch(out: &mut Vec<u8>, m: &Machine, watch: Watch) -> Result<(), AllocError>
    ensures { OnOk result
        (out.new.items ≡ out.old.items ++ watch_name m.now (watch_of watch)) }
{
    match watch {
        Watch::HasWord(place) => push_has_word(out, m, place),
        Watch::IsPast => push_text(out, b"n_past"),
        Watch::LacksRegister { bus } => push_of_bus(out, m, b"unset_", bus),
        Watch::LacksPort { bus } => push_of_bus(out, m, b"unshown_", bus),
        Watch::LacksOperand { unit } => push_of_unit(out, m, b"lacks_", unit),
        Watch::Clashes { unit } => push_of_unit(out, m, b"clashes_", unit),
        Watch::Fault => push_text(out, b"n_fault"),
    }
}
