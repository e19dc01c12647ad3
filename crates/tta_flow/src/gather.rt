//! The variables that a step wants live before it.

ghost use Rattle.std.specs.Prelude.{◌≡◌, ◌&&◌, not, ◌+◌, ◌<◌, ◌/◌, ◌^◌, ℕ, false, length};
ghost use Rattle.std.specs.Option.{option_map_or};
ghost use Rattle.tta_flow.specs.Bits.{has};
ghost use Rattle.tta_flow.specs.Growth.{Sets};
ghost use Rattle.tta_flow.specs.Rows.{has_at, AreWide, wanted};
ghost use Rattle.tta_flow.specs.Steps.{falls_through, target, assigns, reads};

use crate::bits::BitRow;
use crate::reads::add_reads;
use crate::steps::{assigned_by, falls_on, target_of};
use tta_program::Step;

/// The variables that a step wants live before it, by the rows of those that can follow it.
pub fn gather(room: &mut BitRow, rows: &[BitRow], step: &Step, at: usize)
    requires small { at + 1 < 2 ^ 64 }
    requires wide { AreWide rows.now (length room.old.words.items) }
    ensures bits { (x : ℕ) → x / 64 < length room.old.words.items
        → has room.new x ≡ wanted rows.now step.now at x }
    ensures room { length room.new.words.items ≡ length room.old.words.items }
{
    room.clear();
    gather_next(room, rows, step, at);
    gather_target(room, rows, step);
    forget(room, step);
    add_reads(room, step);
}

/// Adds what is live before the step in the next place, where that can follow.
fn gather_next(room: &mut BitRow, rows: &[BitRow], step: &Step, at: usize)
    requires small { at + 1 < 2 ^ 64 }
    requires wide { AreWide rows.now (length room.old.words.items) }
    ensures { Sets (λ x. falls_through step.now && has_at rows.now (at + 1) x) room.old room.new }
{
    if falls_on(step) {
        add_row(room, rows, at + 1);
    }
}

/// Adds what is live before the step that a branch names.
fn gather_target(room: &mut BitRow, rows: &[BitRow], step: &Step)
    requires wide { AreWide rows.now (length room.old.words.items) }
    ensures { Sets (λ x. option_map_or (λ to. has_at rows.now to x) (target step.now) false)
        room.old room.new }
{
    if let Some(to) = target_of(step) {
        add_row(room, rows, to as usize);
    }
}

/// Adds a row, where it is there.
fn add_row(room: &mut BitRow, rows: &[BitRow], at: usize)
    requires wide { AreWide rows.now (length room.old.words.items) }
    ensures { Sets (has_at rows.now at) room.old room.new }
{
    if at < rows.len() {
        room.absorb(&rows[at]);
    }
}

/// Unsets the variable that a step assigns.
fn forget(room: &mut BitRow, step: &Step)
    ensures bits { (x : ℕ) → has room.new x ≡ (has room.old x && not (assigns step.now x)) }
    ensures room { length room.new.words.items ≡ length room.old.words.items }
{
    if let Some(d) = assigned_by(step) {
        room.unset(d as usize);
    }
}
