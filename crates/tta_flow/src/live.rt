//! Which variables are live at which steps.

ghost use Rattle.std.specs.Prelude.{◌≡◌, ◌+◌, ◌<◌, ◌^◌, map, IfOk};
ghost use Rattle.tta_flow.specs.Growth.{Sets};
ghost use Rattle.tta_flow.specs.Live.{IsLive, IsLiveProc, next_of};
ghost use Rattle.tta_flow.specs.Live.{before_in, after_next, after_in, live_before, live_after};

use crate::bits::BitRow;
use crate::flow::Flow;
use crate::rows::live_rows;
use crate::steps::{falls_on, target_of};
use std::alloc::{AllocError, Global};
use tta_program::{Proc, Program, Step};

/// The variables that are live at the steps of a program.
#[derive(Drop)]
pub struct Live {
    procs: Vec<LiveProc>,
}

/// The same of a procedure: for each step the variables that are live before it, and what can
/// follow it.
#[derive(Drop)]
pub struct LiveProc {
    pub rows: Vec<BitRow>,
    pub nexts: Vec<Next>,
}

/// What can follow a step: the one in the next place, and the one that it names.
#[derive(Clone, Copy)]
pub struct Next {
    pub falls_through: bool,
    pub target: Option<u32>,
}

impl Live {
    /// What is live in a program. (The flow is that of the program; the blocks are not asked.)
    pub fn of(alloc: Global, p: &Program, _f: &Flow) -> Result<Self, AllocError>
        ensures { IfOk result (λ live. IsLive p.now live) }
    {
        let mut procs = Vec::new(alloc);
        for q in p.procs.as_slice() {
            procs.push(LiveProc::of(alloc, q)?)?;
        }
        Ok(Live { procs })
    }

    /// Whether a variable of a procedure is live before a step.
    #[tactic(auto, unfolding(crate::specs::Live::live_before))]
    pub fn before(&self, owner: u32, step: u32, var: u32) -> bool
        ensures { result ≡ live_before self.now owner step var }
    {
        let owner = owner as usize;
        owner < self.procs.len() && self.procs[owner].before(step as usize, var as usize)
    }

    /// Sets the bits of the variables that are live before a step, as far as there is room.
    #[tactic(auto, unfolding(crate::specs::Live::live_before))]
    pub fn add_before(&self, owner: u32, step: u32, row: &mut BitRow)
        ensures { Sets (live_before self.now owner step) row.old row.new }
    {
        let owner = owner as usize;
        if owner < self.procs.len() {
            self.procs[owner].add_before(step as usize, row);
        }
    }

    /// Whether a variable of a procedure is live after a step.
    #[tactic(auto, unfolding(crate::specs::Live::live_after))]
    pub fn after(&self, owner: u32, step: u32, var: u32) -> bool
        ensures { result ≡ live_after self.now owner step var }
    {
        let owner = owner as usize;
        owner < self.procs.len() && self.procs[owner].after(step as usize, var as usize)
    }
}

impl LiveProc {
    /// What is live in a procedure. An `Err` is out of memory.
    fn of(alloc: Global, q: &Proc) -> Result<Self, AllocError>
        ensures { IfOk result (λ live. IsLiveProc q.now live) }
    {
        let steps = q.steps.as_slice();
        Ok(LiveProc {
            rows: live_rows(alloc, steps, q.vars)?,
            nexts: nexts_of(alloc, steps)?,
        })
    }

    /// Whether a variable is live before a step.
    fn before(&self, step: usize, var: usize) -> bool
        ensures { result ≡ before_in self.now step var }
    {
        step < self.rows.len() && self.rows[step].get(var)
    }

    /// Adds what is live before a step.
    fn add_before(&self, step: usize, row: &mut BitRow)
        ensures { Sets (before_in self.now step) row.old row.new }
    {
        if step < self.rows.len() {
            row.add(&self.rows[step]);
        }
    }

    /// Whether a variable is live after a step.
    fn after(&self, step: usize, var: usize) -> bool
        ensures { result ≡ after_in self.now step var }
    {
        step < self.nexts.len() && self.after_next(self.nexts[step], step, var)
    }

    /// Whether a variable is live before what can follow a step.
    fn after_next(&self, next: Next, step: usize, var: usize) -> bool
        requires { step + 1 < 2 ^ 64 }
        ensures { result ≡ after_next self.now next step var }
    {
        if next.falls_through && self.before(step + 1, var) {
            return true;
        }
        match next.target {
            Some(to) => self.before(to as usize, var),
            None => false,
        }
    }
}

/// What can follow each step.
fn nexts_of(alloc: Global, steps: &[Step]) -> Result<Vec<Next>, AllocError>
    ensures { IfOk result (λ nexts. nexts.items ≡ map next_of steps.now) }
{
    let mut nexts = Vec::new(alloc);
    for step in steps {
        nexts.push(Next {
            falls_through: falls_on(step),
            target: target_of(step),
        })?;
    }
    Ok(nexts)
}
