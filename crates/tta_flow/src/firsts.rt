//! With which steps blocks begin.

ghost use Rattle.std.specs.Prelude.{◌≡◌, ◌==◌, ◌&&◌, ◌||◌, ◌+◌, ◌/◌, ◌<◌, ◌^◌, ℕ, true, false, length, IfOk};
ghost use Rattle.std.specs.Option.{option_map_or};
ghost use Rattle.tta_flow.specs.Bits.{has};
ghost use Rattle.tta_flow.specs.Blocks.{IsFirst};
ghost use Rattle.tta_flow.specs.Growth.{Sets};
ghost use Rattle.tta_flow.specs.Paths.{Reached};
ghost use Rattle.tta_flow.specs.Steps.{cuts, target};

use crate::bits::BitRow;
use crate::steps::{ends_block, target_of};
use std::alloc::{AllocError, Global};
use tta_program::Step;

/// The steps with which blocks begin.
pub fn firsts_of(alloc: Global, steps: &[Step], reached: &BitRow) -> Result<BitRow, AllocError>
    requires sound { (k : ℕ) → has reached.now k ≡ true → Reached steps.now k }
    requires whole { (k : ℕ) → Reached steps.now k → has reached.now k ≡ true }
    ensures sound { IfOk result (λ row. (k : ℕ) → k < length steps.now
        → has row k ≡ true → IsFirst steps.now k) }
    ensures whole { IfOk result (λ row. (k : ℕ) → k < length steps.now
        → IsFirst steps.now k → has row k ≡ true) }
{
    let mut firsts = BitRow::new(alloc, steps.len())?;
    firsts.set_within(0);
    for at in 0..steps.len() {
        add_firsts(&mut firsts, &steps[at], at, reached.get(at));
    }
    Ok(firsts)
}

/// Adds the steps with which blocks begin because of one step.
fn add_firsts(firsts: &mut BitRow, step: &Step, at: usize, reached: bool)
    requires { at + 1 < 2 ^ 64 }
    ensures { Sets (λ k. (cuts step.now && at + 1 == k)
        || (reached && option_map_or (λ to. to == k) (target step.now) false)) firsts.old firsts.new }
{
    add_after(firsts, step, at);
    add_target(firsts, step, reached);
}

/// Marks the step after one that ends a block.
fn add_after(firsts: &mut BitRow, step: &Step, at: usize)
    requires { at + 1 < 2 ^ 64 }
    ensures { Sets (λ k. cuts step.now && at + 1 == k) firsts.old firsts.new }
{
    if ends_block(step) {
        firsts.set_within(at + 1);
    }
}

/// Marks the step that one that is reached jumps to.
fn add_target(firsts: &mut BitRow, step: &Step, reached: bool)
    ensures { Sets (λ k. reached && option_map_or (λ to. to == k) (target step.now) false)
        firsts.old firsts.new }
{
    if reached {
        if let Some(to) = target_of(step) {
            firsts.set_within(to as usize);
        }
    }
}
