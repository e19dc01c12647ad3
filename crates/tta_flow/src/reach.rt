//! Which steps a procedure comes to.

ghost use Rattle.std.specs.Prelude.{◌≡◌, ◌==◌, ◌&&◌, ◌+◌, ◌<◌, ◌^◌, ℕ, true, false, IfOk, OnOk};
ghost use Rattle.std.specs.Option.{option_map_or};
ghost use Rattle.tta_flow.specs.Bits.{has};
ghost use Rattle.tta_flow.specs.Paths.{Reached, IsClosed};
ghost use Rattle.tta_flow.specs.Search.{IsMarked, Finds};
ghost use Rattle.tta_flow.specs.Steps.{falls_through, target, follows};

use crate::bits::BitRow;
use crate::search::Search;
use crate::steps::{falls_on, target_of};
use std::alloc::{AllocError, Global};
use tta_program::Step;

/// The steps to which paths lead from the first.
pub fn reached(alloc: Global, steps: &[Step]) -> Result<BitRow, AllocError>
    requires { IsClosed steps.now }
    ensures sound { IfOk result (λ row. (k : ℕ) → has row k ≡ true → Reached steps.now k) }
    ensures whole { IfOk result (λ row. (k : ℕ) → Reached steps.now k → has row k ≡ true) }
{
    let mut search = Search::new(alloc, steps.len())?;
    search.mark(0)?;
    let mut next = 0;
    while next < search.queue.len() {
        let at = search.queue[next];
        mark_next(&mut search, &steps[at], at)?;
        next += 1;
    }
    Ok(search.into_marks())
}

/// Finds the steps that can follow one.
fn mark_next(search: &mut Search, step: &Step, at: usize) -> Result<(), AllocError>
    requires marked { IsMarked search.old }
    requires small { at + 1 < 2 ^ 64 }
    ensures { OnOk result (Finds (follows step.now at) search.old search.new) }
{
    mark_fall(search, step, at)?;
    mark_target(search, step)?;
    Ok(())
}

/// Finds the next step, if this one goes on to it.
fn mark_fall(search: &mut Search, step: &Step, at: usize) -> Result<(), AllocError>
    requires marked { IsMarked search.old }
    requires small { at + 1 < 2 ^ 64 }
    ensures { OnOk result
        (Finds (λ k. falls_through step.now && at + 1 == k) search.old search.new) }
{
    if falls_on(step) {
        search.mark(at + 1)?;
    }
    Ok(())
}

/// Finds the step that this one jumps to, if it jumps.
fn mark_target(search: &mut Search, step: &Step) -> Result<(), AllocError>
    requires { IsMarked search.old }
    ensures { OnOk result (Finds (λ k. option_map_or (λ to. to == k) (target step.now) false)
        search.old search.new) }
{
    if let Some(to) = target_of(step) {
        search.mark(to as usize)?;
    }
    Ok(())
}
