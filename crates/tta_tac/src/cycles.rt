//! Which procedure leads back to itself by calls.
//!
//! A walk along the calls gives numbers that never rise along them, by which all procedures are
//! passed over that do not lead back to themselves: where a procedure calls only smaller numbers,
//! no way leads back. So a search, which takes as long as there are calls, is made of the procedure
//! that is reported, and of no other.

ghost use Rattle.std.specs.Prelude.{◌≡◌, ◌<◌, ◌==◌, true, false, length, IfOk, OnOk, MatchOption};
ghost use Rattle.std.specs.Prelude.{[], replicate, slice_index_or};
ghost use Rattle.std.specs.List.{list_any};
ghost use Rattle.tta_tac.specs.Cycles.{AreLevel, IsAcyclic, IsMarked, Finds};
ghost use Rattle.tta_program.specs.Rules.{Reaches, calls_proc};
ghost use Rattle.tta_tac.specs.Text.{with_main, IsFirstRecursive};

use crate::order::{are_at_most, are_level, numbers_of};
use std::alloc::{AllocError, Global};
use tta_program::{Proc, Step};

/// The place of the first procedure that leads back to itself by calls, or `None` where there is
/// none.
pub fn first_recursive(alloc: Global, procs: &[Proc]) -> Result<Option<usize>, AllocError>
    ensures { IfOk result (λ first.
        MatchOption first (IsAcyclic procs.now) (IsFirstRecursive procs.now)) }
{
    let numbers = numbers_of(alloc, procs)?;
    first_back(alloc, procs, numbers.as_slice())
}

/// The place of the first procedure that leads back to itself, where one number is given for each.
fn first_back(alloc: Global, procs: &[Proc], numbers: &[u64]) -> Result<Option<usize>, AllocError>
    requires { length numbers.now ≡ length procs.now }
    ensures { IfOk result (λ first.
        MatchOption first (IsAcyclic procs.now) (IsFirstRecursive procs.now)) }
{
    let level = are_level(procs, numbers);
    for place in 0..procs.len() {
        if falls(procs, numbers, level, place) {
            continue;
        }
        if leads_back(alloc, procs, place)? {
            return Ok(Some(place));
        }
    }
    Ok(None)
}

/// Whether numbers never rise along calls, and fall along those of a procedure; then it does not
/// lead back to itself.
fn falls(procs: &[Proc], numbers: &[u64], level: bool, place: usize) -> bool
    requires size { length numbers.now ≡ length procs.now }
    requires level { level ≡ true → AreLevel procs.now numbers.now }
    requires within { place < length procs.now }
    ensures { result ≡ true → Reaches (with_main procs.now 0) place place → ⊥ }
{
    let own = numbers[place];
    if level && own > 0 {
        are_at_most(procs[place].steps.as_slice(), numbers, own - 1)
    } else {
        false
    }
}

/// Whether a procedure leads back to itself.
fn leads_back(alloc: Global, procs: &[Proc], from: usize) -> Result<bool, AllocError>
    requires { from < length procs.now }
    ensures back { IfOk result (λ back. back ≡ true → Reaches (with_main procs.now 0) from from) }
    ensures no { IfOk result (λ back.
        back ≡ false → Reaches (with_main procs.now 0) from from → ⊥) }
{
    let mut marks = vec![in alloc; false; procs.len()]?;
    let mut found = Vec::new(alloc);
    match mark_reached(procs, from, &mut marks, &mut found) {
        Ok(()) => Ok(marks[from]),
        Err(error) => Err(error),
    }
}

/// Finds and marks the procedures that one leads to, where none was found.
fn mark_reached(
    procs: &[Proc],
    from: usize,
    marks: &mut Vec<bool>,
    found: &mut Vec<usize>,
) -> Result<(), AllocError>
    requires within { from < length procs.now }
    requires clear { marks.old.items ≡ replicate (length procs.now) false }
    requires none { found.old.items ≡ [] }
    ensures size { OnOk result (length marks.new.items ≡ length procs.now) }
    ensures back { OnOk result (slice_index_or marks.new.items from false ≡ true
        → Reaches (with_main procs.now 0) from from) }
    ensures no { OnOk result (slice_index_or marks.new.items from false ≡ false
        → Reaches (with_main procs.now 0) from from → ⊥) }
{
    mark_callees(procs[from].steps.as_slice(), marks, found)?;
    let mut next = 0;
    while next < found.len() {
        let place = found[next];
        mark_callees(procs[place].steps.as_slice(), marks, found)?;
        next += 1;
    }
    Ok(())
}

/// Finds the procedures that steps call.
fn mark_callees(
    steps: &[Step],
    marks: &mut Vec<bool>,
    found: &mut Vec<usize>,
) -> Result<(), AllocError>
    requires { IsMarked marks.old.items found.old.items }
    ensures size { OnOk result (length marks.new.items ≡ length marks.old.items) }
    ensures marked { OnOk result (IsMarked marks.new.items found.new.items) }
    ensures finds { OnOk result (Finds (length marks.old.items)
        (λ k. list_any (calls_proc k) steps.now) found.old.items found.new.items) }
{
    for step in steps {
        mark_callee(step, marks, found)?;
    }
    Ok(())
}

/// Finds the procedure that a step calls, if it is a call.
fn mark_callee(step: &Step, marks: &mut Vec<bool>, found: &mut Vec<usize>) -> Result<(), AllocError>
    requires { IsMarked marks.old.items found.old.items }
    ensures size { OnOk result (length marks.new.items ≡ length marks.old.items) }
    ensures marked { OnOk result (IsMarked marks.new.items found.new.items) }
    ensures finds { OnOk result (Finds (length marks.old.items) (λ k. calls_proc k step.now)
        found.old.items found.new.items) }
{
    match step {
        Step::Invoke { callee, .. } => mark(*callee as usize, marks, found)?,
        _ => {}
    }
    Ok(())
}

/// Finds a procedure, where it is there and was not found before.
fn mark(place: usize, marks: &mut Vec<bool>, found: &mut Vec<usize>) -> Result<(), AllocError>
    requires { IsMarked marks.old.items found.old.items }
    ensures size { OnOk result (length marks.new.items ≡ length marks.old.items) }
    ensures marked { OnOk result (IsMarked marks.new.items found.new.items) }
    ensures finds { OnOk result (Finds (length marks.old.items) (λ k. place == k)
        found.old.items found.new.items) }
{
    if place >= marks.len() || marks[place] {
        return Ok(());
    }
    found.push(place)?;
    marks[place] = true;
    Ok(())
}
