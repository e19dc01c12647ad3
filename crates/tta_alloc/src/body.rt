//! A procedure with what is known of it, and the variables for which its positions count.

ghost use Rattle.std.specs.Prelude.{◌<◌, ◌≤◌, ◌-◌, ◌^◌, nat_lt, length};
ghost use Rattle.tta_alloc.specs.Bodies.{counted, at_entry, at_step, Fills};
ghost use Rattle.tta_flow.specs.Growth.{Sets};
ghost use Rattle.tta_flow.specs.Steps.{assigns};

use tta_flow::{BitRow, Live, assigned_by};
use tta_program::{Proc, Step};

/// A procedure by its number, the steps that paths come to, and what is live where.
#[derive(Drop)]
pub struct Body<'a> {
    pub q: &'a Proc,
    pub owner: u32,
    pub reached: &'a BitRow,
    pub live: &'a Live,
}

impl Body<'_> {
    /// Fills a row with the variables for which a position counts. A step that reads a variable has
    /// it live before, and one after which it is live assigns it or has it live before.
    pub fn fill(&self, row: &mut BitRow, place: usize)
        requires within { place ≤ length self.now.q.now.steps }
        requires few { length self.now.q.now.steps < 2 ^ 32 - 1 }
        ensures { Fills (counted self.now place) row.old row.new }
    {
        row.clear();
        if place == 0 {
            self.add_entry(row);
        } else {
            self.add_step(row, place - 1);
        }
    }

    /// Adds the variables that are assigned at the entry.
    fn add_entry(&self, row: &mut BitRow)
        ensures { Sets (at_entry self.now) row.old row.new }
    {
        add_below(row, self.q.params);
        self.live.add_before(self.owner, 0, row);
    }

    /// Adds the variables that a step assigns or has live before it, where paths come to it.
    fn add_step(&self, row: &mut BitRow, at: usize)
        requires there { at < length self.now.q.now.steps }
        requires few { length self.now.q.now.steps < 2 ^ 32 - 1 }
        ensures { Sets (at_step self.now at) row.old row.new }
    {
        if self.reached.get(at) {
            self.live.add_before(self.owner, at as u32, row);
            add_assigned(row, &self.q.steps.as_slice()[at]);
        }
    }
}

/// Adds the variables below a number.
fn add_below(row: &mut BitRow, count: u32)
    ensures { Sets (λ x. nat_lt x count) row.old row.new }
{
    for x in 0..count {
        row.set_within(x as usize);
    }
}

/// Adds the variable that a step assigns.
fn add_assigned(row: &mut BitRow, step: &Step)
    ensures { Sets (assigns step.now) row.old row.new }
{
    if let Some(d) = assigned_by(step) {
        row.set_within(d as usize);
    }
}
