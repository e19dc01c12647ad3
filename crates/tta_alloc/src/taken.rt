//! The intervals of the variables of a procedure, and those that take part in its scan.

ghost use Rattle.std.specs.Prelude.{◌≡◌, ◌++◌, ◌<◌, ℕ, false, IfOk, OnOk, option_to_list};
ghost use Rattle.tta_alloc.specs.AllIntervals.{AreIntervalsOf};
ghost use Rattle.tta_alloc.specs.Bodies.{IsKnown};
ghost use Rattle.tta_alloc.specs.Intervals.{AreTaken};
ghost use Rattle.tta_alloc.specs.IsAnalysed.{IsAnalysed};
ghost use Rattle.tta_alloc.specs.Meetings.{met};
ghost use Rattle.tta_alloc.specs.Together.{AreAmong, interval_of};
ghost use Rattle.tta_flow.specs.Bits.{has};
ghost use Rattle.tta_flow.specs.Growth.{Sets};
ghost use Rattle.tta_flow.specs.Search.{is_found};

use crate::body::Body;
use crate::interval::Interval;
use crate::kept::kept_over;
use crate::met::Seen;
use crate::walks::{firsts, lasts};
use std::alloc::{AllocError, Global};
use tta_flow::{BitRow, Live};
use tta_program::Proc;

/// The intervals that take part, in the order in which they are taken.
pub fn taken_of(
    alloc: Global,
    q: &Proc,
    owner: u32,
    reached: &[usize],
    live: &Live,
) -> Result<Vec<Interval>, AllocError>
    requires { IsAnalysed q.now owner reached.now live.now }
    ensures { IfOk result (λ taken. AreTaken q.now taken.items) }
{
    let row = row_of(alloc, q.steps.len(), reached)?;
    let body = Body {
        q,
        owner,
        reached: &row,
        live,
    };
    let mut taken = together(alloc, &body)?;
    taken.sort_unstable();
    Ok(taken)
}

/// The places of a list below a number, as a row.
fn row_of(alloc: Global, count: usize, places: &[usize]) -> Result<BitRow, AllocError>
    ensures { IfOk result (λ row. (k : ℕ) → k < count → has row k ≡ is_found places.now k) }
{
    let mut row = BitRow::new(alloc, count)?;
    add_all(&mut row, places);
    Ok(row)
}

/// Adds the places of a list, as far as there is room.
fn add_all(row: &mut BitRow, places: &[usize])
    ensures { Sets (is_found places.now) row.old row.new }
{
    for place in places {
        row.set_within(*place);
    }
}

/// The interval of each variable of a procedure, none where no position counts for the variable. It
/// fails only where there is no memory.
pub fn intervals_of(
    alloc: Global,
    q: &Proc,
    owner: u32,
    reached: &[usize],
    live: &Live,
) -> Result<Vec<Option<Interval>>, AllocError>
    requires { IsAnalysed q.now owner reached.now live.now }
    ensures { IfOk result (λ all. AreIntervalsOf q.now all.items) }
{
    let row = row_of(alloc, q.steps.len(), reached)?;
    let body = Body {
        q,
        owner,
        reached: &row,
        live,
    };
    each(alloc, &body)
}

/// The interval of each variable, in the order of the variables.
fn each(alloc: Global, body: &Body<'_>) -> Result<Vec<Option<Interval>>, AllocError>
    requires { IsKnown body.now }
    ensures { IfOk result (λ all. AreIntervalsOf body.now.q.now all.items) }
{
    let starts = firsts(alloc, body)?;
    let ends = lasts(alloc, body)?;
    let mut all = Vec::new(alloc);
    for x in 0..body.q.vars {
        all.push(interval_at(&starts, &ends, x))?;
    }
    Ok(all)
}

/// The intervals that take part, in the order of the variables.
fn together(alloc: Global, body: &Body<'_>) -> Result<Vec<Interval>, AllocError>
    requires { IsKnown body.now }
    ensures { IfOk result (λ taken. AreAmong body.now.q.now body.now.q.now.vars taken.items) }
{
    let kept = kept_over(alloc, body)?;
    let starts = firsts(alloc, body)?;
    let ends = lasts(alloc, body)?;
    let mut taken = Vec::new(alloc);
    for x in 0..body.q.vars {
        push_some(&mut taken, candidate(&kept, &starts, &ends, x))?;
    }
    Ok(taken)
}

/// The interval of a variable, where it has one and no call keeps it.
fn candidate(kept: &BitRow, starts: &Seen, ends: &Seen, x: u32) -> Option<Interval>
    ensures { result ≡ interval_of (has kept.now x) (met starts.now x) (met ends.now x) x }
{
    if kept.get(x as usize) {
        return None;
    }
    interval_at(starts, ends, x)
}

/// The interval of a variable, by its first position and its last.
fn interval_at(starts: &Seen, ends: &Seen, x: u32) -> Option<Interval>
    ensures { result ≡ interval_of false (met starts.now x) (met ends.now x) x }
{
    match (starts.place(x), ends.place(x)) {
        (Some(start), Some(end)) => Some(Interval { start, var: x, end }),
        _ => None,
    }
}

/// Puts an interval after the others, if there is one. It fails only where there is no memory.
fn push_some(taken: &mut Vec<Interval>, one: Option<Interval>) -> Result<(), AllocError>
    ensures { OnOk result (taken.new.items ≡ taken.old.items ++ option_to_list one) }
{
    if let Some(interval) = one {
        taken.push(interval)?;
    }
    Ok(())
}
