//! The numbers of a machine's places, for tables with an entry for each place.

ghost use Rattle.std.specs.Prelude.{◌≡◌, option_map};
ghost use Rattle.tta_arch.specs.Effects.{KeptReg, KeptImm, KeptOperand, KeptPort, KeptRa};
ghost use Rattle.tta_arch.specs.Effects.{Trigger, target_of};
ghost use Rattle.tta_moves.specs.Touches.{place_of, place_of_source, guard_of, guard_place};
ghost use Rattle.tta_moves.specs.Touches.{place_written, target_of_item};
ghost use Rattle.tta_moves.specs.Numbers.{place_number};

use crate::items::{Item, ItemSource};
use crate::parts::operation;
use tta_arch::{Dest, Machine, Source};

/// How many registers a file has at most.
const REGISTERS: usize = 64;

/// How many registers an immediate unit has at most.
const IMMEDIATE_REGISTERS: usize = 16;

/// How many units a machine has at most.
pub const UNITS: usize = 32;

/// The number of the first register of the first immediate unit: there are at most 8 files.
const IMMEDIATES: usize = 8 * REGISTERS;

/// The number of the first unit's operand port: there are at most 4 immediate units.
const OPERANDS: usize = IMMEDIATES + 4 * IMMEDIATE_REGISTERS;

/// The number of the first unit's result port.
const RESULTS: usize = OPERANDS + UNITS;

/// The number of the return address.
const RETURN_ADDRESS: usize = RESULTS + UNITS;

/// How many places a machine has at most.
pub const PLACES: usize = RETURN_ADDRESS + 1;

/// The number of a register.
pub fn register(file: u8, index: u8) -> usize
    ensures { result ≡ place_number (KeptReg file index) }
{
    REGISTERS * usize::from(file) + usize::from(index)
}

/// The number of a register of an immediate unit.
pub fn immediate(unit: u8, index: u8) -> usize
    ensures { result ≡ place_number (KeptImm unit index) }
{
    IMMEDIATES + IMMEDIATE_REGISTERS * usize::from(unit) + usize::from(index)
}

/// The number of an operand port.
pub fn operand(unit: u8) -> usize
    ensures { result ≡ place_number (KeptOperand unit) }
{
    OPERANDS + usize::from(unit)
}

/// The number of a result port.
pub fn port(unit: u8) -> usize
    ensures { result ≡ place_number (KeptPort unit) }
{
    RESULTS + usize::from(unit)
}

/// The number of the return address.
pub fn return_address() -> usize
    ensures { result ≡ place_number KeptRa }
{
    RETURN_ADDRESS
}

/// The number of the place that a machine's source is read from; a word has none.
fn read_by(src: Source) -> Option<usize>
    ensures { result ≡ option_map place_number (place_of src) }
{
    match src {
        Source::Reg { file, index } => Some(register(file, index)),
        Source::Imm { unit, index } => Some(immediate(unit, index)),
        Source::Shown { unit } => Some(port(unit)),
        Source::Ra => Some(return_address()),
        Source::Value(_) => None,
    }
}

/// The number of the place that a source is read from; a word and an address have none.
pub fn read_place(src: ItemSource) -> Option<usize>
    ensures { result ≡ option_map place_number (place_of_source src) }
{
    match src {
        ItemSource::Port(from) => read_by(from),
        ItemSource::Address(_) => None,
    }
}

/// The number of the register of an item's guard.
pub fn guard_place(x: Item) -> Option<usize>
    ensures { result ≡ option_map (λ g. place_number (guard_place g)) (guard_of x) }
{
    match x {
        Item::Move { guard, .. } => match guard {
            None => None,
            Some(g) => Some(register(g.file, g.index)),
        },
        Item::Long { .. } => None,
    }
}

/// The number of the result port that an operation of a unit writes, if it has a result.
fn result_place(m: &Machine, unit: u8, op: u8) -> Option<usize>
    ensures { result ≡ option_map place_number (place_written m.now (Trigger unit op)) }
{
    let Some(o) = operation(m, unit, op) else {
        return None;
    };
    if o.op.has_result() {
        Some(port(unit))
    } else {
        None
    }
}

/// The number of the place that a move to a destination writes, if there is one.
fn written_by(m: &Machine, dst: Dest) -> Option<usize>
    ensures { result ≡ option_map place_number (place_written m.now (target_of dst)) }
{
    match dst {
        Dest::Reg { file, index } => Some(register(file, index)),
        Dest::Operand { unit } => Some(operand(unit)),
        Dest::Trigger { unit, op } => result_place(m, unit, op),
        Dest::Jump | Dest::Halt => None,
        Dest::Call => Some(return_address()),
    }
}

/// The number of the place that an item may write, if there is one.
pub fn written_place(m: &Machine, x: Item) -> Option<usize>
    ensures { result ≡ option_map place_number (place_written m.now (target_of_item x)) }
{
    match x {
        Item::Move { dst, .. } => written_by(m, dst),
        Item::Long { imm, reg, .. } => Some(immediate(imm, reg)),
    }
}
