//! An order of the steps in which a step comes after those that can follow it.

ghost use Rattle.std.specs.Prelude.{◌≡◌, ◌&&◌, not, ◌+◌, ◌<◌, ◌/◌};
ghost use Rattle.std.specs.Prelude.{length, nat_lt, IfOk, IfSome, OnOk};
ghost use Rattle.tta_flow.specs.Bits.{has};
ghost use Rattle.tta_flow.specs.Order.{ArePlaces, IsNew, IsWalk, Comes, GoesOn};

use crate::bits::BitRow;
use crate::steps::{falls_on, target_of};
use std::alloc::{AllocError, Global};
use tta_program::Step;

/// A depth-first walk along the edges of a procedure: the steps that it has come to, those of them
/// from which it may still go on, and those that it has left, in the order in which it left them.
#[derive(Drop)]
pub struct Walk {
    pub seen: BitRow,
    pub path: Vec<usize>,
    pub left: Vec<usize>,
}

/// The places of all steps, each after those of the steps that can follow it, as far as loops
/// allow: the postorder of a depth-first walk from the first step, and then from each step that the
/// walk has not come to.
pub fn postorder(alloc: Global, steps: &[Step]) -> Result<Vec<usize>, AllocError>
    ensures { IfOk result (λ order. ArePlaces (length steps.now) order.items) }
{
    let mut walk = Walk::new(alloc, steps.len())?;
    for root in 0..steps.len() {
        walk.walk_from(steps, root)?;
    }
    Ok(walk.into_order())
}

impl Walk {
    /// A walk that has come to no step.
    fn new(alloc: Global, places: usize) -> Result<Self, AllocError>
        ensures { IfOk result (λ walk. IsWalk places walk) }
    {
        Ok(Walk {
            seen: BitRow::new(alloc, places)?,
            path: Vec::new(alloc),
            left: Vec::new(alloc),
        })
    }

    /// Walks from a step, where the walk has not come to it, as far as there are new steps.
    fn walk_from(&mut self, steps: &[Step], root: usize) -> Result<(), AllocError>
        requires there { root < length steps.now }
        requires walk { IsWalk (length steps.now) self.old }
        ensures { OnOk result (IsWalk (length steps.now) self.new) }
    {
        if self.seen.get(root) {
            return Ok(());
        }
        self.come_to(root)?;
        while let Some(at) = self.path.pop() {
            self.go_on(steps, at)?;
        }
        Ok(())
    }

    /// Goes on from a step to a new one that can follow it, or leaves the step.
    fn go_on(&mut self, steps: &[Step], at: usize) -> Result<(), AllocError>
        requires there { at < length steps.now }
        requires walk { IsWalk (length steps.now) self.old }
        ensures { OnOk result (GoesOn (length steps.now) self.old self.new) }
    {
        match self.next_of(steps, at) {
            Some(next) => {
                self.path.push(at)?;
                self.come_to(next)?;
            }
            None => self.left.push(at)?,
        }
        Ok(())
    }

    /// A new step that can follow one.
    fn next_of(&self, steps: &[Step], at: usize) -> Option<usize>
        requires there { at < length steps.now }
        ensures { IfSome result (λ next. IsNew (length steps.now) self.now next) }
    {
        if falls_on(&steps[at]) && self.is_new(steps.len(), at + 1) {
            return Some(at + 1);
        }
        match target_of(&steps[at]) {
            Some(to) if self.is_new(steps.len(), to as usize) => Some(to as usize),
            _ => None,
        }
    }

    /// Whether there is a step at a place to which the walk has not come.
    fn is_new(&self, places: usize, place: usize) -> bool
        ensures { result ≡ (nat_lt place places && not (has self.now.seen place)) }
    {
        place < places && !self.seen.get(place)
    }

    /// Comes to a step.
    fn come_to(&mut self, place: usize) -> Result<(), AllocError>
        requires { place / 64 < length self.old.seen.words.items }
        ensures { OnOk result (Comes place self.old self.new) }
    {
        self.path.push(place)?;
        self.seen.set(place);
        Ok(())
    }

    /// The order, without what else the walk holds.
    fn into_order(self) -> Vec<usize>
        ensures { result ≡ self.left }
    {
        let Walk { left, .. } = self;
        left
    }
}
