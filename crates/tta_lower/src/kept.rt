//! The home registers that keep their words after a block.

ghost use Rattle.std.specs.Prelude.{◌≡◌, ◌<◌, ◌||◌, ◌&&◌, ◌++◌, ◌∷◌, ◌^◌, [], ℕ, not, nat_lt, false, length, filter, replicate, IfOk, OnOk, if◌then◌else◌};
ghost use Rattle.tta_alloc.specs.Homes.{count_of};
ghost use Rattle.tta_lower.specs.Plan.{homes_in, live_in};
ghost use Rattle.tta_lower.specs.Tables.{marked};
ghost use Rattle.tta_lower.specs.Layout.{vars_of};
ghost use Rattle.tta_lower.specs.Laid.{is_kept_by, kept_by, kept_one};
ghost use Rattle.tta_lower.specs.Lower.{numbers, owner_of};

use crate::part::{Part, owner_of};
use crate::plan::{Plan, home, is_live, vars_in};
use std::alloc::{AllocError, Global};

/// Whether a home register is there and not marked yet.
fn is_open(marks: &[bool], home: u32) -> bool
    ensures { result ≡ (nat_lt home (length marks.now) && not (marked marks.now home)) }
{
    (home as usize) < marks.len() && !marks[home as usize]
}

/// Marks the home register of a variable, where it is live and has one. Liveness costs more than
/// the home, so it is asked only where it can add a mark.
fn mark_live(marks: &mut Vec<bool>, plan: &Plan<'_>, part: Part, x: u32)
    requires within { x < vars_of plan.now.p.now (owner_of part) }
    ensures size { length marks.new.items ≡ length marks.old.items }
    ensures marks { (k : ℕ) → k < length marks.old.items → marked marks.new.items k
        ≡ (marked marks.old.items k
        || is_kept_by (homes_in plan.now) (owner_of part) (live_in plan.now part) k x) }
{
    if let Some(h) = home(plan, owner_of(part), x) {
        if is_open(marks.as_slice(), h) && is_live(plan, part, x) {
            marks[h as usize] = true;
        }
    }
}

/// Marks the home registers of the variables that are live where a part ends.
fn mark_all(marks: &mut Vec<bool>, plan: &Plan<'_>, part: Part)
    requires there { owner_of part < length plan.now.p.now.procs }
    requires none { (k : ℕ) → k < length marks.old.items → marked marks.old.items k ≡ false }
    ensures size { length marks.new.items ≡ length marks.old.items }
    ensures marks { (k : ℕ) → k < length marks.new.items → marked marks.new.items k
        ≡ kept_one (homes_in plan.now) (vars_of plan.now.p.now (owner_of part))
        (owner_of part) (live_in plan.now part) k }
{
    let vars = vars_in(plan.p, owner_of(part));
    for x in 0..vars {
        mark_live(marks, plan, part, x);
    }
}

/// Puts a number after others, if it is kept.
fn push_if(into: &mut Vec<u32>, k: u32, is_kept: bool) -> Result<(), AllocError>
    ensures { OnOk result (into.new.items ≡ into.old.items ++ (if is_kept then k ∷ [] else [])) }
{
    if is_kept {
        into.push(k)?;
    }
    Ok(())
}

/// So many marks, none of which is set.
fn no_marks(alloc: Global, count: u32) -> Result<Vec<bool>, AllocError>
    ensures { IfOk result (λ marks. marks.items ≡ replicate count false) }
{
    let marks = vec![in alloc; false; count as usize]?;
    Ok(marks)
}

/// The home registers that are marked, rising.
#[tactic(auto, using(crate::proofs::Counted::filter_more))]
fn marked_homes(alloc: Global, marks: &[bool]) -> Result<Vec<u32>, AllocError>
    requires few { length marks.now < 2 ^ 32 }
    ensures { IfOk result (λ kept. kept.items
        ≡ filter (marked marks.now) (numbers 0 (length marks.now))) }
{
    let mut kept = Vec::new(alloc);
    for k in 0..marks.len() {
        push_if(&mut kept, k as u32, marks[k])?;
    }
    Ok(kept)
}

/// The home registers of the variables that are live where a part ends, rising.
pub fn kept_homes(alloc: Global, plan: &Plan<'_>, part: Part) -> Result<Vec<u32>, AllocError>
    requires there { owner_of part < length plan.now.p.now.procs }
    ensures { IfOk result (λ kept. kept.items
        ≡ kept_by (homes_in plan.now) (vars_of plan.now.p.now (owner_of part))
        (count_of plan.now.homes.now) (owner_of part) (live_in plan.now part)) }
{
    let count = plan.homes.count();
    let mut marks = no_marks(alloc, count)?;
    mark_all(&mut marks, plan, part);
    let kept = marked_homes(alloc, marks.as_slice())?;
    Ok(kept)
}
