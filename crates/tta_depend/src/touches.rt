//! What an item touches, and when.

ghost use Rattle.std.specs.Prelude.{◌≡◌, ◌+◌, ◌<◌, ◌≤◌, ◌∷◌, ◌++◌, [], true, map};
ghost use Rattle.std.specs.Option.{option_map_or};
ghost use Rattle.std.specs.List.{list_all};
ghost use Rattle.arrayvec.specs.ArrayVec.{array_vec_len};
ghost use Rattle.tta_arch.specs.Effects.{Trigger, target_of};
ghost use Rattle.tta_moves.specs.Touches.{place_of_source, guard_place};
ghost use Rattle.tta_moves.specs.Bounds.{due_after, At, operand_read, written_at};
ghost use Rattle.tta_moves.specs.Bounds.{reads_by, writes_by, lasts};
ghost use Rattle.tta_depend.specs.Touched.{touched, is_soon};

use crate::places::trigger;
use arrayvec::ArrayVec;
use tta_arch::{Dest, GuardRef, Machine};
use tta_moves::numbers::{immediate, operand, port, read_place, register, return_address};
use tta_moves::parts::operation;
use tta_moves::{Item, ItemSource};

/// A spot by its number, and how many cycles after the item's own it is touched.
#[derive(Clone, Copy, Debug, Default, PartialEq, Eq)]
pub struct Touched {
    pub spot: usize,
    pub after: u32,
}

/// After how many cycles the result of an operation is due, if it has one.
fn due_after(m: &Machine, unit: u8, op: u8) -> Option<u8>
    ensures { result ≡ due_after m.now (Trigger unit op) }
{
    let Some(o) = operation(m, unit, op) else {
        return None;
    };
    if o.op.has_result() {
        Some(o.latency)
    } else {
        None
    }
}

/// How many cycles an item takes: its own, or those until its result is due.
pub fn lasts(m: &Machine, x: Item) -> u32
    ensures value { result ≡ lasts m.now x }
    ensures some { 1 ≤ result }
    ensures few { result ≤ 255 }
{
    match x {
        Item::Move {
            dst: Dest::Trigger { unit, op },
            ..
        } => match due_after(m, unit, op) {
            Some(due) => u32::from(due).max(1),
            None => 1,
        },
        _ => 1,
    }
}

/// Adds the register of a guard, if there is one.
fn push_guard(touches: &mut ArrayVec<Touched, 3>, guard: Option<GuardRef>)
    requires { array_vec_len touches.old < 3 }
    ensures items { touches.new.items ≡ touches.old.items
        ++ map touched (option_map_or (λ g. (At (guard_place g), 0) ∷ []) guard []) }
    ensures room { array_vec_len touches.new ≤ array_vec_len touches.old + 1 }
    ensures soon { list_all is_soon touches.old.items ≡ true
        → list_all is_soon touches.new.items ≡ true }
{
    if let Some(g) = guard {
        touches.push(Touched {
            spot: register(g.file, g.index),
            after: 0,
        });
    }
}

/// Adds the place that a source reads, if it reads one.
fn push_source(touches: &mut ArrayVec<Touched, 3>, src: ItemSource)
    requires { array_vec_len touches.old < 3 }
    ensures items { touches.new.items ≡ touches.old.items
        ++ map touched (option_map_or (λ p. (At p, 0) ∷ []) (place_of_source src) []) }
    ensures room { array_vec_len touches.new ≤ array_vec_len touches.old + 1 }
    ensures soon { list_all is_soon touches.old.items ≡ true
        → list_all is_soon touches.new.items ≡ true }
{
    if let Some(spot) = read_place(src) {
        touches.push(Touched { spot, after: 0 });
    }
}

/// Adds the operand port that a trigger reads.
fn push_operand(touches: &mut ArrayVec<Touched, 3>, dst: Dest)
    requires { array_vec_len touches.old < 3 }
    ensures items { touches.new.items ≡ touches.old.items
        ++ map touched (operand_read (target_of dst)) }
    ensures soon { list_all is_soon touches.old.items ≡ true
        → list_all is_soon touches.new.items ≡ true }
{
    if let Dest::Trigger { unit, .. } = dst {
        touches.push(Touched {
            spot: operand(unit),
            after: 1,
        });
    }
}

/// What an item reads: its source and its guard in its own cycle, and an operation's operand as the
/// cycle's own moves leave it.
pub fn reads_by(x: Item) -> ArrayVec<Touched, 3>
    ensures items { result.items ≡ map touched (reads_by x) }
    ensures soon { list_all is_soon result.items ≡ true }
{
    let mut touches = ArrayVec::new();
    if let Item::Move { guard, src, dst } = x {
        push_source(&mut touches, src);
        push_guard(&mut touches, guard);
        push_operand(&mut touches, dst);
    }
    touches
}

/// A spot that is touched in the cycle after the item's own.
fn one(spot: usize) -> ArrayVec<Touched, 2>
    ensures { result.items ≡ (record { spot = spot; after = 1 }) ∷ [] }
{
    let mut touches = ArrayVec::new();
    touches.push(Touched { spot, after: 1 });
    touches
}

/// What a trigger changes: its port, and the result port once its result is due.
fn started(m: &Machine, unit: u8, op: u8) -> ArrayVec<Touched, 2>
    ensures items { result.items ≡ map touched (written_at m.now (Trigger unit op)) }
    ensures soon { list_all is_soon result.items ≡ true }
{
    let mut touches = one(trigger(unit));
    if let Some(due) = due_after(m, unit, op) {
        touches.push(Touched {
            spot: port(unit),
            after: u32::from(due),
        });
    }
    touches
}

/// What an item writes: a register, an operand port and a trigger port from the next cycle on, a
/// result port from when the result is due.
pub fn writes_by(m: &Machine, x: Item) -> ArrayVec<Touched, 2>
    ensures items { result.items ≡ map touched (writes_by m.now x) }
    ensures soon { list_all is_soon result.items ≡ true }
{
    match x {
        Item::Long { imm, reg, .. } => one(immediate(imm, reg)),
        Item::Move { dst, .. } => match dst {
            Dest::Reg { file, index } => one(register(file, index)),
            Dest::Operand { unit } => one(operand(unit)),
            Dest::Trigger { unit, op } => started(m, unit, op),
            Dest::Call => one(return_address()),
            Dest::Jump | Dest::Halt => ArrayVec::new(),
        },
    }
}
