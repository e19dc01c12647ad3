//! Home registers in turn: each interval takes the one that has been free longest.

ghost use Rattle.std.specs.Prelude.{◌≡◌, ◌+◌, ◌<◌, ◌^◌, true, false, ℕ, Some, length, IfOk};
ghost use Rattle.std.specs.Prelude.{slice_get, slice_set};
ghost use Rattle.tta_alloc.specs.Intervals.{AreTaken};
ghost use Rattle.tta_alloc.specs.Turns.{AreInTurnOf, in_reg, is_reg};
ghost use Rattle.tta_alloc.specs.Turning.{IsLeast, Takes};

use crate::home::Home;
use crate::interval::Interval;
use crate::scan::{scan_homes, slots};
use std::alloc::{AllocError, Global};
use tta_program::Proc;

/// The homes of the variables of a procedure, in turn, by the intervals that take part.
pub fn turn_homes(
    alloc: Global,
    q: &Proc,
    taken: &[Interval],
    homes: u32,
) -> Result<Vec<Home>, AllocError>
    requires { AreTaken q.now taken.now }
    ensures { IfOk result (λ answer. AreInTurnOf q.now homes answer.items) }
{
    let first = scan_homes(alloc, taken, q.vars, homes)?;
    let mut turns = Turns {
        from: zeros(alloc, homes)?,
        homes: slots(alloc, q.vars)?,
    };
    for new in taken {
        turns.step(*new, stays(first.as_slice(), new.var));
    }
    Ok(turns.into_homes())
}

/// So many zeros.
fn zeros(alloc: Global, count: u32) -> Result<Vec<u64>, AllocError>
    ensures count { IfOk result (λ v. length v.items ≡ count) }
    ensures zeros { IfOk result (λ v. (k f : ℕ) → slice_get v.items k ≡ Some f → f ≡ 0) }
{
    Ok(vec![in alloc; 0; count as usize]?)
}

/// Whether a variable has a home register.
fn stays(homes: &[Home], var: u32) -> bool
    ensures { result ≡ in_reg homes.now var }
{
    match homes.get(var as usize) {
        Some(home) => is_register(*home),
        None => false,
    }
}

/// Whether a home is a register.
fn is_register(home: Home) -> bool
    ensures { result ≡ is_reg home }
{
    match home {
        Home::Reg(_) => true,
        Home::Slot(_) => false,
    }
}

/// For each home register the position from which it is free, past the end of the last interval
/// that had it; and all homes.
#[derive(Drop)]
pub struct Turns {
    pub from: Vec<u64>,
    pub homes: Vec<Home>,
}

impl Turns {
    /// One interval more, which takes a home register if its variable is to stay in one.
    fn step(&mut self, new: Interval, stays: bool)
        requires some { stays ≡ true → 0 < length self.old.from.items }
        requires few { length self.old.from.items < 2 ^ 32 }
        ensures takes { stays ≡ true → Takes new self.old self.new }
        ensures rests { stays ≡ false → self.new ≡ self.old }
    {
        if stays {
            self.take(new);
        }
    }

    /// An interval takes the home register that has been free longest.
    fn take(&mut self, new: Interval)
        requires some { 0 < length self.old.from.items }
        requires few { length self.old.from.items < 2 ^ 32 }
        ensures { Takes new self.old self.new }
    {
        let place = least_place(&self.from);
        self.from[place] = u64::from(new.end) + 1;
        self.settle(new.var, Home::Reg(place as u32));
    }

    /// The home of a variable.
    fn settle(&mut self, var: u32, home: Home)
        ensures homes { self.new.homes.items ≡ slice_set self.old.homes.items var home }
        ensures from { self.new.from ≡ self.old.from }
    {
        if (var as usize) < self.homes.len() {
            self.homes[var as usize] = home;
        }
    }

    /// All homes.
    fn into_homes(self) -> Vec<Home>
        ensures { result ≡ self.homes }
    {
        let Turns { homes, .. } = self;
        homes
    }
}

/// The place of the least of some numbers, the first of them.
fn least_place(from: &[u64]) -> usize
    requires { 0 < length from.now }
    ensures { IsLeast from.now result }
{
    let mut best = 0;
    for place in 1..from.len() {
        best = if from[place] < from[best] {
            place
        } else {
            best
        };
    }
    best
}
