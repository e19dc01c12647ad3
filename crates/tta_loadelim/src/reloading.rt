//! The pass: copies, served reads, and only what something asks for.

ghost use Rattle.std.specs.Prelude.{◌≡◌, ◌≤◌, ℕ, List, [], length, true, IfOk, IfSome};
ghost use Rattle.tta_moves.specs.declared.items.Item.{Item};
ghost use Rattle.tta_loadelim.specs.Copied.{AreSpare};
ghost use Rattle.tta_loadelim.specs.Thinned.{AreThinned};
ghost use Rattle.tta_loadelim.specs.Reworked.{AreWorked, IsReworked, IsReloaded};

use crate::accesses::{Access, accesses};
use crate::asking::asked;
use crate::copying::Plan;
use crate::serving::serve;
use crate::sparing::spare_registers;
use crate::straight::is_straight;
use crate::thinning::without_dead_stores;
use crate::upcoming::next_loads;
use crate::worth::{is_worth, may_store_over};
use std::alloc::{AllocError, Global};
use tta_arch::Machine;
use tta_connect::{BuildTarget, TargetMachine};
use tta_moves::{BlockList, Item, is_list};
use tta_optim::with_items;
use tta_reorder::Checker;
use tta_reorder::operations::uses_frame;

/// The items of a list with copies, each reading a source with its word that is no load, where there
/// is one. The only error is out of memory.
fn served(
    alloc: Global,
    on: &TargetMachine<'_>,
    hub: u8,
    b: &BlockList,
    accesses: &[Access],
) -> Result<Vec<Item>, AllocError>
    ensures { let m = on.now.machine.now in IfOk result (λ v. (fresh : List (ℕ × ℕ))
        × AreSpare hub b.now fresh × AreWorked m fresh b.now.items v.items) }
{
    let items = b.items.as_slice();
    let next = next_loads(alloc, accesses)?;
    let fresh = spare_registers(alloc, hub, b)?;
    let plan = Plan {
        on,
        hub,
        accesses,
        next: next.as_slice(),
    };
    let all = serve(alloc, &plan, fresh.as_slice(), items)?;
    Ok(all)
}

/// The items but stores into slots that a later item stores into before any loads them, if there are
/// such; none where it is not known that all of these can go. The only error is out of memory.
fn without_stores(
    alloc: Global,
    m: &Machine,
    are_some: bool,
    items: Vec<Item>,
) -> Result<Option<Vec<Item>>, AllocError>
    ensures { IfOk result (λ o. IfSome o (λ v. AreThinned m.now [] items.items v.items)) }
{
    if !are_some {
        return Ok(Some(items));
    }
    let rest = without_dead_stores(alloc, m, items.as_slice())?;
    Ok(rest)
}

/// The list of a block with copies and served reads, and without stores that are stored over; none
/// where it loads and stores no slot, or where the machine cannot carry the list out. The only error
/// is out of memory.
fn reworked(
    alloc: Global,
    on: &TargetMachine<'_>,
    hub: u8,
    b: &BlockList,
) -> Result<Option<BlockList>, AllocError>
    ensures { let m = on.now.machine.now in
        IfOk result (λ o. IfSome o (λ r. IsReworked m hub b.now r)) }
{
    let uses = accesses(alloc, on.machine, b.items.as_slice())?;
    if !is_worth(uses.as_slice()) {
        return Ok(None);
    }
    let all = served(alloc, on, hub, b, uses.as_slice())?;
    let stores_over = may_store_over(uses.as_slice());
    let Some(items) = without_stores(alloc, on.machine, stores_over, all)? else {
        return Ok(None);
    };
    let more = with_items(alloc, b, items)?;
    if is_list(on.machine, on.net, &more) {
        Ok(Some(more))
    } else {
        Ok(None)
    }
}

/// How many items load a slot or store into one.
fn frame_uses(m: &Machine, items: &[Item]) -> usize {
    let mut count = 0;
    for x in items {
        if uses_frame(m, *x) {
            count += 1;
        }
    }
    count
}

/// Whether a list has no more items than another, and loads and stores less often.
fn gains(m: &Machine, b: &BlockList, r: &BlockList) -> bool
    ensures { result ≡ true → length r.now.items ≤ length b.now.items }
{
    r.items.len() <= b.items.len()
        && frame_uses(m, r.items.as_slice()) < frame_uses(m, b.items.as_slice())
}

/// The pass with the tables by which it checks its lists, which serve one block after another.
#[derive(Drop)]
pub struct Reloads {
    checker: Checker,
}

impl Reloads {
    /// The pass for any number of blocks. The only error is out of memory.
    pub fn new(alloc: Global) -> Result<Self, AllocError> {
        let checker = Checker::new(alloc)?;
        Ok(Reloads { checker })
    }

    /// A list that may stand for the list of a block, with fewer loads and stores of frame slots;
    /// none where nothing is gained, or where it is not known that the list may stand for it. The
    /// only error is out of memory.
    pub fn reload(
        &mut self,
        alloc: Global,
        on: &BuildTarget<'_>,
        b: &BlockList,
    ) -> Result<Option<BlockList>, AllocError>
        ensures { IfOk result (λ o. IsReloaded on.now.joined.machine.now b.now o) }
    {
        let joined = &on.joined;
        let m = joined.machine;
        let hub = on.choice.hub;
        let Some(more) = reworked(alloc, joined, hub, b)? else {
            return Ok(None);
        };
        let numbers = asked(alloc, m, more.live_out.as_slice(), more.items.as_slice())?;
        let Some(r) = self
            .checker
            .in_order(alloc, &more, joined, numbers.as_slice())?
        else {
            return Ok(None);
        };
        if !gains(m, b, &r) {
            return Ok(None);
        }
        if is_straight(alloc, joined, hub, r.items.as_slice())? {
            Ok(Some(r))
        } else {
            Ok(None)
        }
    }
}
