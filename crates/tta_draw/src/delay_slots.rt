//! Which rows are delay slots.

ghost use Rattle.std.specs.Prelude.{◌≡◌, ◌≤◌, false, length};
ghost use Rattle.std.specs.Option.{option_map_or};
ghost use Rattle.std.specs.List.{list_any};
ghost use Rattle.tta_draw.specs.DelaySlots.{steers, has_turn, is_delay_slot};

use tta_arch::{Dest, Machine};
use tta_code::{Instruction, Move};

/// Whether a move into this destination jumps, calls or halts.
fn steers(dst: Dest) -> bool
    ensures { result ≡ steers dst }
{
    match dst {
        Dest::Jump | Dest::Call | Dest::Halt => true,
        Dest::Reg { .. } | Dest::Operand { .. } | Dest::Trigger { .. } => false,
    }
}

/// Whether a slot has such a move.
fn is_turn(slot: Option<Move>) -> bool
    ensures { result ≡ option_map_or (λ v. steers v.dst) slot false }
{
    match slot {
        Some(v) => steers(v.dst),
        None => false,
    }
}

/// Whether an instruction has such a move.
fn has_turn(i: &Instruction) -> bool
    ensures { result ≡ has_turn i.now }
{
    for slot in i.moves.as_slice() {
        if is_turn(*slot) {
            return true;
        }
    }
    false
}

/// Whether one of some instructions has such a move.
fn have_turn(words: &[Instruction]) -> bool
    ensures { result ≡ list_any has_turn words.now }
{
    for i in words {
        if has_turn(i) {
            return true;
        }
    }
    false
}

/// How many delay slots a jump, call or halt has.
pub fn delay_of(m: &Machine) -> usize
    ensures all { result ≡ m.now.control.delay }
    ensures few { result ≤ 255 }
{
    usize::from(m.control.delay)
}

/// Whether a row is a delay slot: one of the rows above it, which are as many as the delay, has such a
/// move.
pub fn is_delay_slot(m: &Machine, words: &[Instruction], row: usize) -> bool
    requires { row ≤ length words.now }
    ensures { result ≡ is_delay_slot m.now words.now row }
{
    let first = row.saturating_sub(delay_of(m));
    have_turn(&words[first..row])
}
