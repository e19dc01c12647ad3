//! Which steps can come before a step.

ghost use Rattle.std.specs.Prelude.{◌≡◌, ◌==◌, ◌&&◌, ◌+◌, ◌<◌, ◌^◌, ℕ, false, length, IfOk, OnOk};
ghost use Rattle.std.specs.Option.{option_map_or};
ghost use Rattle.tta_flow.specs.Table.{is_listed, Adds};
ghost use Rattle.tta_flow.specs.Steps.{falls_through, target, follows, leads};

use crate::steps::{falls_on, target_of};
use crate::table::PlaceLists;
use std::alloc::{AllocError, Global};
use tta_program::Step;

/// For each step the places of those that it can follow.
pub fn steps_before(alloc: Global, steps: &[Step]) -> Result<PlaceLists, AllocError>
    ensures size { IfOk result (λ t. length t.lists.items ≡ length steps.now) }
    ensures all { IfOk result (λ t. (k p : ℕ) → k < length steps.now
        → is_listed t k p ≡ leads steps.now p k) }
{
    let mut table = PlaceLists::new(alloc, steps.len())?;
    for at in 0..steps.len() {
        add_next(&mut table, &steps[at], at)?;
    }
    Ok(table)
}

/// Puts a step into the lists of those that can follow it.
fn add_next(table: &mut PlaceLists, step: &Step, at: usize) -> Result<(), AllocError>
    requires { at + 1 < 2 ^ 64 }
    ensures { OnOk result (Adds at (follows step.now at) table.old table.new) }
{
    add_fall(table, step, at)?;
    add_target(table, step, at)?;
    Ok(())
}

/// Adds the edge from a step to the next one, if the step goes on to it.
fn add_fall(table: &mut PlaceLists, step: &Step, at: usize) -> Result<(), AllocError>
    requires { at + 1 < 2 ^ 64 }
    ensures { OnOk result
        (Adds at (λ k. falls_through step.now && at + 1 == k) table.old table.new) }
{
    if falls_on(step) {
        table.add(at + 1, at)?;
    }
    Ok(())
}

/// Adds the edge from a step to the one that it jumps to, if it jumps.
fn add_target(table: &mut PlaceLists, step: &Step, at: usize) -> Result<(), AllocError>
    ensures { OnOk result (Adds at (λ k. option_map_or (λ to. to == k) (target step.now) false)
        table.old table.new) }
{
    if let Some(to) = target_of(step) {
        table.add(to as usize, at)?;
    }
    Ok(())
}
