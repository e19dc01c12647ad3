//! Variables that are kept over calls.

ghost use Rattle.std.specs.Prelude.{◌≡◌, ◌<◌, ◌-◌, ◌^◌, ◌==◌, ◌&&◌, not, ℕ, false, length, IfOk};
ghost use Rattle.std.specs.Option.{option_map_or};
ghost use Rattle.tta_alloc.specs.Bodies.{IsKnown, is_held, is_held_over};
ghost use Rattle.tta_alloc.specs.Together.{AreKept};
ghost use Rattle.tta_flow.specs.Bits.{has};
ghost use Rattle.tta_flow.specs.Growth.{Sets};

use crate::body::Body;
use std::alloc::{AllocError, Global};
use tta_flow::BitRow;
use tta_program::Step;

/// The variables that are live after a call that does not assign them.
pub fn kept_over(alloc: Global, body: &Body<'_>) -> Result<BitRow, AllocError>
    requires { IsKnown body.now }
    ensures { IfOk result (λ row. AreKept body.now.q.now row) }
{
    let mut kept = BitRow::new(alloc, body.q.vars as usize)?;
    let mut room = BitRow::new(alloc, body.q.vars as usize)?;
    for at in 0..body.q.steps.len() {
        add_kept(&mut kept, &mut room, body, at);
    }
    Ok(kept)
}

/// Adds the variables that a step keeps, where paths come to it.
fn add_kept(kept: &mut BitRow, room: &mut BitRow, body: &Body<'_>, at: usize)
    requires there { at < length body.now.q.now.steps }
    requires few { length body.now.q.now.steps < 2 ^ 32 - 1 }
    requires alike { length room.old.words.items ≡ length kept.old.words.items }
    ensures kept { Sets (is_held body.now at) kept.old kept.new }
    ensures room { length room.new.words.items ≡ length room.old.words.items }
{
    if body.reached.get(at) {
        add_over(kept, room, body, at);
    }
}

/// Adds the variables that are live after a step, where it is a call, except its destination.
fn add_over(kept: &mut BitRow, room: &mut BitRow, body: &Body<'_>, at: usize)
    requires there { at < length body.now.q.now.steps }
    requires few { length body.now.q.now.steps < 2 ^ 32 - 1 }
    requires alike { length room.old.words.items ≡ length kept.old.words.items }
    ensures kept { Sets (is_held_over body.now at) kept.old kept.new }
    ensures room { length room.new.words.items ≡ length room.old.words.items }
{
    if let Step::Invoke { d, .. } = &body.q.steps.as_slice()[at] {
        room.clear();
        body.live.add_before(body.owner, at as u32 + 1, room);
        forget(room, *d);
        kept.add(room);
    }
}

/// Unsets the bit of a destination, where there is one.
fn forget(room: &mut BitRow, d: Option<u32>)
    ensures bits { (x : ℕ) → has room.new x
        ≡ (has room.old x && not (option_map_or (λ v. v == x) d false)) }
    ensures room { length room.new.words.items ≡ length room.old.words.items }
{
    if let Some(d) = d {
        room.unset(d as usize);
    }
}
