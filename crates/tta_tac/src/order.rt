//! Numbers of procedures that never rise along calls. Procedures that lead to one another have the
//! same number, and all others have different ones; but nothing hangs on that but time.

ghost use Rattle.std.specs.Prelude.{◌≡◌, true, false, nat_le, length, IfOk};
ghost use Rattle.std.specs.List.{list_all};
ghost use Rattle.tta_tac.specs.Cycles.{AreLevel, passes};

use std::alloc::{AllocError, Global};
use tta_program::{Proc, Step};

/// A time that does not come.
const NEVER: u64 = u64::MAX;

/// What is left to do on a walk along the calls, the next at the end.
#[derive(Clone, Copy)]
enum Visit {
    Enter(usize),
    Leave(usize),
}

/// A walk along the calls, which leaves a procedure after all that it calls.
#[derive(Drop)]
struct Walk {
    visits: Vec<Visit>,
    /// When each procedure was entered.
    entered: Vec<u64>,
    /// When the first of those that a procedure was seen to lead to, and that have no number, was
    /// entered.
    firsts: Vec<u64>,
    /// The procedures that were entered and have no number, in the order of their entry.
    open: Vec<usize>,
    numbers: Vec<u64>,
}

/// For each procedure the time at which the walk left the first one of those that lead to it and
/// to which it leads.
pub fn numbers_of(alloc: Global, procs: &[Proc]) -> Result<Vec<u64>, AllocError>
    ensures { IfOk result (λ numbers. length numbers.items ≡ length procs.now) }
{
    let mut walk = start(alloc, procs)?;
    walk_on(&mut walk, procs)?;
    Ok(walk.numbers)
}

/// Makes all visits that a walk has left to do.
fn walk_on(walk: &mut Walk, procs: &[Proc]) -> Result<(), AllocError>
    ensures { length walk.new.numbers.items ≡ length walk.old.numbers.items }
{
    for time in 0..NEVER {
        match walk.visits.pop() {
            None => break,
            Some(Visit::Enter(place)) => enter(walk, procs, place, time)?,
            Some(Visit::Leave(place)) => leave(walk, procs, place, time),
        }
    }
    Ok(())
}

/// A walk that is to enter each procedure.
fn start(alloc: Global, procs: &[Proc]) -> Result<Walk, AllocError>
    ensures { IfOk result (λ walk. length walk.numbers.items ≡ length procs.now) }
{
    let visits = enter_all(alloc, procs.len())?;
    Ok(Walk {
        visits,
        entered: vec![in alloc; NEVER; procs.len()]?,
        firsts: vec![in alloc; NEVER; procs.len()]?,
        open: Vec::new(alloc),
        numbers: vec![in alloc; NEVER; procs.len()]?,
    })
}

/// Visits that enter so many procedures.
fn enter_all(alloc: Global, count: usize) -> Result<Vec<Visit>, AllocError> {
    let mut visits = Vec::new(alloc);
    for place in 0..count {
        visits.push(Visit::Enter(place))?;
    }
    Ok(visits)
}

/// Enters a procedure where it was not entered before.
fn enter(walk: &mut Walk, procs: &[Proc], place: usize, time: u64) -> Result<(), AllocError>
    ensures { length walk.new.numbers.items ≡ length walk.old.numbers.items }
{
    let Some(proc) = procs.get(place) else {
        return Ok(());
    };
    if read(&walk.entered, place) != NEVER {
        return Ok(());
    }
    write(&mut walk.entered, place, time);
    write(&mut walk.firsts, place, time);
    walk.open.push(place)?;
    walk.visits.push(Visit::Leave(place))?;
    push_callees(proc.steps.as_slice(), &mut walk.visits)
}

/// Makes the walk enter the procedures that steps call.
fn push_callees(steps: &[Step], visits: &mut Vec<Visit>) -> Result<(), AllocError> {
    for step in steps {
        if let Step::Invoke { callee, .. } = step {
            visits.push(Visit::Enter(*callee as usize))?;
        }
    }
    Ok(())
}

/// Leaves a procedure. Where it leads to none that was entered before it and has no number, those
/// that were entered since have their number now.
fn leave(walk: &mut Walk, procs: &[Proc], place: usize, time: u64)
    ensures { length walk.new.numbers.items ≡ length walk.old.numbers.items }
{
    let Some(proc) = procs.get(place) else {
        return;
    };
    let own = read(&walk.entered, place);
    let first = first_of(proc.steps.as_slice(), &walk.firsts, &walk.numbers, own);
    write(&mut walk.firsts, place, first);
    if first == own {
        close(&mut walk.open, &mut walk.numbers, place, time);
    }
}

/// The earliest of this time and those of the procedures that steps call and that have no number.
fn first_of(steps: &[Step], firsts: &Vec<u64>, numbers: &Vec<u64>, own: u64) -> u64 {
    let mut first = own;
    for step in steps {
        if let Step::Invoke { callee, .. } = step {
            if read(numbers, *callee as usize) == NEVER {
                first = first.min(read(firsts, *callee as usize));
            }
        }
    }
    first
}

/// Gives a number to the open procedures from the last one down to this one.
fn close(open: &mut Vec<usize>, numbers: &mut Vec<u64>, place: usize, number: u64)
    ensures { length numbers.new.items ≡ length numbers.old.items }
{
    for _ in 0..open.len() {
        let Some(last) = open.pop() else {
            return;
        };
        write(numbers, last, number);
        if last == place {
            return;
        }
    }
}

/// The time of a place, and never for a place that has none.
fn read(times: &Vec<u64>, place: usize) -> u64 {
    match times.get(place) {
        Some(time) => *time,
        None => NEVER,
    }
}

/// Notes the time of a place that there is.
fn write(times: &mut Vec<u64>, place: usize, time: u64)
    ensures { length times.new.items ≡ length times.old.items }
{
    if place < times.len() {
        times[place] = time;
    }
}

/// Whether numbers never rise along calls.
pub fn are_level(procs: &[Proc], numbers: &[u64]) -> bool
    requires { length numbers.now ≡ length procs.now }
    ensures level { result ≡ true → AreLevel procs.now numbers.now }
    ensures rises { result ≡ false → AreLevel procs.now numbers.now → ⊥ }
{
    for (place, proc) in procs.iter().enumerate() {
        if !are_at_most(proc.steps.as_slice(), numbers, numbers[place]) {
            return false;
        }
    }
    true
}

/// Whether all calls among steps go to procedures whose number is no greater than this one.
pub fn are_at_most(steps: &[Step], numbers: &[u64], most: u64) -> bool
    ensures { result ≡ list_all (passes (λ n. nat_le n most) numbers.now) steps.now }
{
    for step in steps {
        if !is_at_most(step, numbers, most) {
            return false;
        }
    }
    true
}

/// Whether a step calls no procedure with a greater number than this.
fn is_at_most(step: &Step, numbers: &[u64], most: u64) -> bool
    ensures { result ≡ passes (λ n. nat_le n most) numbers.now step.now }
{
    match step {
        Step::Invoke { callee, .. } => match numbers.get(*callee as usize) {
            Some(number) => *number <= most,
            None => true,
        },
        _ => true,
    }
}
