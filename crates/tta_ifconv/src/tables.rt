//! What is written down of the steps of a procedure before they are converted.

ghost use Rattle.std.specs.Prelude.{◌≡◌, ◌+◌, ◌<◌, ◌^◌, suc, length, if◌then◌else◌, IfOk};
ghost use Rattle.tta_ifconv.specs.Tables.{with_mark, AreTargets, ArePlaces};

use crate::triangles::{is_dropped, target};
use std::alloc::{AllocError, Global};
use tta_program::Step;

/// Marks the step that a step names, where it names one of the steps.
fn mark(marks: &mut [bool], step: &Step)
    ensures { marks.new ≡ with_mark marks.old step.now }
{
    if let Some(to) = target(step) {
        let to = to as usize;
        if to < marks.len() {
            marks[to] = true;
        }
    }
}

/// A mark for each step, which says whether some step names it.
pub fn targets_of(alloc: Global, steps: &[Step]) -> Result<Vec<bool>, AllocError>
    ensures { IfOk result (λ marks. AreTargets steps.now marks.items) }
{
    let mut marks = vec![in alloc; false; steps.len()]?;
    for step in steps {
        mark(&mut marks, step);
    }
    Ok(marks)
}

/// The number after a step, which is the same after one that is dropped.
fn after(number: u32, dropped: bool) -> u32
    requires { number + 1 < 2 ^ 32 }
    ensures { result ≡ if dropped then number else suc number }
{
    if dropped { number } else { number + 1 }
}

/// The number that each step gets.
pub fn places_of(alloc: Global, steps: &[Step], marks: &[bool]) -> Result<Vec<u32>, AllocError>
    requires few { length steps.now + 1 < 2 ^ 32 }
    requires marks { AreTargets steps.now marks.now }
    ensures { IfOk result (λ places. ArePlaces steps.now places.items) }
{
    let mut places = Vec::new(alloc);
    let mut number = 0;
    for at in 0..steps.len() {
        places.push(number)?;
        number = after(number, is_dropped(steps, marks, at));
    }
    Ok(places)
}
