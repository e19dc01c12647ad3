//! The signals that a dump tells.

ghost use Rattle.std.specs.Prelude.{◌≡◌};
ghost use Rattle.tta_waves.specs.Signals.{bits_of, is_wide};

use tta_arch::Machine;
use tta_places::width_of;

/// A signal of a machine.
#[derive(Clone, Copy, Debug, PartialEq, Eq)]
pub enum Signal {
    /// The address of the next instruction.
    Address,
    /// Whether the run has halted.
    Halted,
    /// Whether the move of a bus acts.
    Acts { bus: u8 },
    /// The word that a bus carries.
    Carried { bus: u8 },
    /// Whether an operation of a unit starts.
    Starts { unit: u8, op: u8 },
    /// The operand port of a unit.
    Operand { unit: u8 },
    /// The result port of a unit.
    Shown { unit: u8 },
    /// A register of a file.
    Register { file: u8, index: u8 },
    /// A register of an immediate unit.
    Immediate { unit: u8, index: u8 },
    /// The return address.
    ReturnAddress,
}

/// How many bits a signal has that is not of one bit.
const WORD_BITS: u8 = 32;

/// How many bits a signal has.
pub fn bits_of(m: &Machine, signal: Signal) -> u8
    ensures { result ≡ bits_of m.now signal }
{
    match signal {
        Signal::Address => m.control.address,
        Signal::Halted | Signal::Acts { .. } | Signal::Starts { .. } => 1,
        Signal::Register { file, .. } => width_of(m, file),
        Signal::Carried { .. }
        | Signal::Operand { .. }
        | Signal::Shown { .. }
        | Signal::Immediate { .. }
        | Signal::ReturnAddress => WORD_BITS,
    }
}

/// Whether a signal has more than one bit.
pub fn is_wide(m: &Machine, signal: Signal) -> bool
    ensures { result ≡ is_wide m.now signal }
{
    bits_of(m, signal) != 1
}
