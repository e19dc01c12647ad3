//! The steps of a converted procedure, and their lines.

ghost use Rattle.std.specs.Prelude.{◌≡◌, ◌+◌, ◌<◌, ◌^◌, true, length, Some, slice_get, IfOk};
ghost use Rattle.tta_ifconv.specs.Triangles as spec;
ghost use Rattle.tta_ifconv.specs.Triangles.{place, becomes};
ghost use Rattle.tta_ifconv.specs.Tables.{AreTargets, ArePlaces, AreClosed, AreConverted, AreLines, names_within};

use crate::triangles::{is_dropped, is_triangle, opposite};
use std::alloc::{AllocError, Global};
use tta_list::Items;
use tta_program::Step;

/// A branch over a copy as a copy under the opposite condition.
fn joined(alloc: Global, step: &Step, next: &Step) -> Result<Step, AllocError>
    ensures { IfOk result (λ s. s ≡ spec.joined step.now (Some next.now)) }
{
    let Step::If { rel, a, b, .. } = step else {
        return step.copy(alloc);
    };
    let Step::Copy { d, s } = next else {
        return step.copy(alloc);
    };
    Ok(Step::When {
        rel: opposite(*rel),
        a: *a,
        b: *b,
        d: *d,
        s: *s,
    })
}

/// A step, where the steps have new numbers.
fn renumbered(
    alloc: Global,
    step: &Step,
    steps: &[Step],
    places: &[u32],
) -> Result<Step, AllocError>
    requires places { ArePlaces steps.now places.now }
    requires within { names_within (length steps.now) step.now ≡ true }
    ensures { IfOk result (λ s. s ≡ spec.renumbered (place steps.now) step.now) }
{
    match step {
        Step::If { rel, a, b, to } => Ok(Step::If {
            rel: *rel,
            a: *a,
            b: *b,
            to: places[*to as usize],
        }),
        Step::Goto { to } => Ok(Step::Goto {
            to: places[*to as usize],
        }),
        _ => step.copy(alloc),
    }
}

/// What a step becomes that is not the copy of a triangle.
fn converted(
    alloc: Global,
    steps: &[Step],
    marks: &[bool],
    places: &[u32],
    at: usize,
) -> Result<Step, AllocError>
    requires few { length steps.now + 1 < 2 ^ 32 }
    requires marks { AreTargets steps.now marks.now }
    requires places { ArePlaces steps.now places.now }
    requires closed { AreClosed steps.now }
    requires there { at < length steps.now }
    ensures { IfOk result (λ s. (step : Step) → slice_get steps.now at ≡ Some step
        → s ≡ becomes steps.now at step) }
{
    if is_triangle(steps, marks, at) {
        return joined(alloc, &steps[at], &steps[at + 1]);
    }
    renumbered(alloc, &steps[at], steps, places)
}

/// What the steps become.
pub fn converted_steps(
    alloc: Global,
    steps: &[Step],
    marks: &[bool],
    places: &[u32],
) -> Result<Items<Step>, AllocError>
    requires few { length steps.now + 1 < 2 ^ 32 }
    requires marks { AreTargets steps.now marks.now }
    requires places { ArePlaces steps.now places.now }
    requires closed { AreClosed steps.now }
    ensures { IfOk result (λ new. AreConverted steps.now (length steps.now) new) }
{
    let mut new = Items::new(alloc);
    for at in 0..steps.len() {
        if !is_dropped(steps, marks, at) {
            let step = converted(alloc, steps, marks, places, at)?;
            new.push(step)?;
        }
    }
    Ok(new)
}

/// The lines of these.
pub fn converted_lines(
    alloc: Global,
    steps: &[Step],
    marks: &[bool],
    lines: &[u32],
) -> Result<Items<u32>, AllocError>
    requires few { length steps.now + 1 < 2 ^ 32 }
    requires marks { AreTargets steps.now marks.now }
    requires lines { length lines.now ≡ length steps.now }
    ensures { IfOk result (λ new. AreLines steps.now lines.now (length steps.now) new) }
{
    let mut new = Items::new(alloc);
    for at in 0..steps.len() {
        if !is_dropped(steps, marks, at) {
            new.push(lines[at])?;
        }
    }
    Ok(new)
}
