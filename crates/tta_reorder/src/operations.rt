//! The operation that an item starts, and what it uses.

ghost use Rattle.std.specs.Prelude.{◌≡◌, option_map};
ghost use Rattle.tta_arch.specs.Effects.{Trigger, target_of};
ghost use Rattle.tta_moves.specs.Touches.{target_of_item};
ghost use Rattle.tta_moves.specs.Numbers.{place_number};
ghost use Rattle.tta_reorder.specs.Channels.{started, starts, operand_place, uses_data, stores_data};
ghost use Rattle.tta_reorder.specs.Channels.{uses_frame, stores_frame, passes_words};

use tta_arch::{Dest, Machine, Op};
use tta_moves::Item;
use tta_moves::numbers::operand;
use tta_moves::parts::operation;

/// The operand port that an operation of a unit reads, by its number, if it reads one.
fn operand_by(m: &Machine, unit: u8, op: u8) -> Option<usize>
    ensures { result ≡ option_map place_number (operand_place m.now (Trigger unit op)) }
{
    let Some(o) = operation(m, unit, op) else {
        return None;
    };
    if o.arity == 2 {
        Some(operand(unit))
    } else {
        None
    }
}

/// The operand port that a move to a destination reads, by its number, if it starts an operation.
fn operand_at(m: &Machine, dst: Dest) -> Option<usize>
    ensures { result ≡ option_map place_number (operand_place m.now (target_of dst)) }
{
    match dst {
        Dest::Trigger { unit, op } => operand_by(m, unit, op),
        Dest::Reg { .. } | Dest::Operand { .. } | Dest::Jump | Dest::Call | Dest::Halt => None,
    }
}

/// The number of the operand port that an item's operation takes a word from.
pub fn operand_number(m: &Machine, x: Item) -> Option<usize>
    ensures { result ≡ option_map place_number (operand_place m.now (target_of_item x)) }
{
    match x {
        Item::Move { dst, .. } => operand_at(m, dst),
        Item::Long { .. } => None,
    }
}

/// The operation that a trigger starts, if the unit has it.
fn started_by(m: &Machine, unit: u8, op: u8) -> Option<Op>
    ensures { result ≡ started m.now (Trigger unit op) }
{
    let Some(o) = operation(m, unit, op) else {
        return None;
    };
    Some(o.op)
}

/// The operation that a move to a destination starts, if it starts one.
fn started_at(m: &Machine, dst: Dest) -> Option<Op>
    ensures { result ≡ started m.now (target_of dst) }
{
    match dst {
        Dest::Trigger { unit, op } => started_by(m, unit, op),
        Dest::Reg { .. } | Dest::Operand { .. } | Dest::Jump | Dest::Call | Dest::Halt => None,
    }
}

/// The operation that an item starts.
pub fn started(m: &Machine, x: Item) -> Option<Op>
    ensures { result ≡ started m.now (target_of_item x) }
{
    match x {
        Item::Move { dst, .. } => started_at(m, dst),
        Item::Long { .. } => None,
    }
}

/// Whether an item stores into the data space.
pub fn stores_data(m: &Machine, x: Item) -> bool
    ensures { result ≡ starts m.now stores_data (target_of_item x) }
{
    match started(m, x) {
        None => false,
        Some(op) => matches!(op, Op::Stw),
    }
}

/// Whether an item loads from the data space or stores into it.
pub fn uses_data(m: &Machine, x: Item) -> bool
    ensures { result ≡ starts m.now uses_data (target_of_item x) }
{
    match started(m, x) {
        None => false,
        Some(op) => matches!(op, Op::Ldw | Op::Stw),
    }
}

/// Whether an item stores into the frame space.
pub fn stores_frame(m: &Machine, x: Item) -> bool
    ensures { result ≡ starts m.now stores_frame (target_of_item x) }
{
    match started(m, x) {
        None => false,
        Some(op) => matches!(op, Op::Stf),
    }
}

/// Whether an item loads from the frame space or stores into it.
pub fn uses_frame(m: &Machine, x: Item) -> bool
    ensures { result ≡ starts m.now uses_frame (target_of_item x) }
{
    match started(m, x) {
        None => false,
        Some(op) => matches!(op, Op::Ldf | Op::Stf),
    }
}

/// Whether an item puts a word out or takes one in.
pub fn passes_words(m: &Machine, x: Item) -> bool
    ensures { result ≡ starts m.now passes_words (target_of_item x) }
{
    match started(m, x) {
        None => false,
        Some(op) => matches!(op, Op::Out | Op::Take),
    }
}
