//! The intervals of all variables of a program.

ghost use Rattle.std.specs.Prelude.{◌≡◌, get_or, None, IfOk};
ghost use Rattle.tta_flow.specs.Blocks.{IsFlow};
ghost use Rattle.tta_flow.specs.Live.{IsLive};
ghost use Rattle.tta_alloc.specs.AllIntervals.{interval_in, AreIntervals};

use crate::interval::Interval;
use crate::steps::steps_of;
use crate::taken::intervals_of;
use std::alloc::{AllocError, Global};
use tta_flow::{Flow, Live};
use tta_program::Program;

/// The interval of each variable of each procedure, none where no position counts for the variable.
#[derive(Drop)]
pub struct Intervals {
    procs: Vec<Vec<Option<Interval>>>,
}

impl Intervals {
    /// The intervals of the variables of a program. It fails only where there is no memory.
    pub fn of(alloc: Global, p: &Program, flow: &Flow, live: &Live) -> Result<Self, AllocError>
        requires flow { IsFlow p.now flow.now.blocks }
        requires live { IsLive p.now live.now }
        ensures { IfOk result (λ all. AreIntervals p.now all) }
    {
        let procs = p.procs.as_slice();
        let steps = steps_of(alloc, flow.blocks.as_slice(), procs.len())?;
        let mut all = Vec::new(alloc);
        for owner in 0..procs.len() {
            let q = &procs[owner];
            all.push(intervals_of(alloc, q, owner as u32, steps.at(owner), live)?)?;
        }
        Ok(Intervals { procs: all })
    }

    /// The interval of a variable of a procedure, if it has one.
    #[tactic(auto, unfolding(crate::specs::AllIntervals::interval_in))]
    pub fn get(&self, owner: u32, x: u32) -> Option<Interval>
        ensures { result ≡ interval_in self.now owner x }
    {
        let owner = owner as usize;
        if owner < self.procs.len() {
            entry(self.procs[owner].as_slice(), x)
        } else {
            None
        }
    }
}

/// What a list has at a place, none past its last.
fn entry(all: &[Option<Interval>], x: u32) -> Option<Interval>
    ensures { result ≡ get_or all.now x None }
{
    if (x as usize) < all.len() {
        all[x as usize]
    } else {
        None
    }
}
