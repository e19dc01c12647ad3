//! Each pass over a block's list.

ghost use Rattle.std.specs.Prelude.{◌≡◌, true, [], IfOk};
ghost use Rattle.tta_connect.specs.Net.{IsNetOf};
ghost use Rattle.tta_moves.specs.Slots.{is_list};
ghost use Rattle.tta_moves.specs.Forms.{is_bypassed, is_shared, is_lively};
ghost use Rattle.tta_optim.specs.Kept.{KeepsMeaning, DoesNoMore};
ghost use Rattle.tta_optim.specs.Passes.{bypass_items, share_items, dead_items};

use crate::bypass_walk::bypass_items;
use crate::dead_walk::dead_items;
use crate::notes::Notes;
use crate::share_walk::share_items;
use crate::wanted::LiveOperands;
use std::alloc::{AllocError, Global};
use tta_arch::Machine;
use tta_connect::{Net, TargetMachine};
use tta_list::Items;
use tta_moves::{BlockList, Item};

/// A list with these items, and the registers of another that are read after it.
pub fn with_items(alloc: Global, b: &BlockList, items: Vec<Item>) -> Result<BlockList, AllocError>
    ensures items { IfOk result (λ r. r.items ≡ items.items) }
    ensures live { IfOk result (λ r. r.live_out ≡ b.now.live_out) }
{
    let live = Vec::from_slice(alloc, b.live_out.as_slice())?;
    Ok(BlockList {
        items: Items::of(items),
        live_out: Items::of(live),
    })
}

/// Lets each move read the result port that still shows what its register has, where a bus joins
/// that to its destination. It fails only where there is no memory.
pub fn bypass(alloc: Global, b: &BlockList, m: &Machine, net: &Net) -> Result<BlockList, AllocError>
    requires net { IsNetOf net.now m.now }
    requires list { is_list m.now b.now.items ≡ true }
    ensures are { IfOk result (λ r. r.items ≡ bypass_items m.now [] b.now.items) }
    ensures meaning { IfOk result (λ r. KeepsMeaning m.now b.now.live_out b.now.items r.items) }
    ensures bypassed { IfOk result (λ r. is_bypassed m.now r.items ≡ true) }
    ensures no_more { IfOk result (λ r. DoesNoMore m.now b.now.items r.items) }
    ensures live { IfOk result (λ r. r.live_out ≡ b.now.live_out) }
{
    let on = TargetMachine { machine: m, net };
    let mut notes = Notes::new(alloc)?;
    let items = bypass_items(alloc, &mut notes, &on, b.items.as_slice())?;
    let r = with_items(alloc, b, items)?;
    Ok(r)
}

/// Leaves out each move that brings an operand port what it has. It fails only where there is no
/// memory.
pub fn share(alloc: Global, b: &BlockList, m: &Machine, net: &Net) -> Result<BlockList, AllocError>
    requires list { is_list m.now b.now.items ≡ true }
    ensures are { IfOk result (λ r. r.items ≡ share_items m.now [] b.now.items) }
    ensures meaning { IfOk result (λ r. KeepsMeaning m.now b.now.live_out b.now.items r.items) }
    ensures shared { IfOk result (λ r. is_shared m.now r.items ≡ true) }
    ensures bypassed { IfOk result (λ r. is_bypassed m.now b.now.items ≡ true
        → is_bypassed m.now r.items ≡ true) }
    ensures no_more { IfOk result (λ r. DoesNoMore m.now b.now.items r.items) }
    ensures live { IfOk result (λ r. r.live_out ≡ b.now.live_out) }
{
    let mut notes = Notes::new(alloc)?;
    let items = share_items(alloc, &mut notes, m, b.items.as_slice())?;
    let r = with_items(alloc, b, items)?;
    Ok(r)
}

/// Leaves out each write of a register or an immediate register that nothing of what stays reads.
/// It fails only where there is no memory.
pub fn dead(alloc: Global, b: &BlockList, m: &Machine, net: &Net) -> Result<BlockList, AllocError>
    requires list { is_list m.now b.now.items ≡ true }
    ensures are { IfOk result (λ r. r.items ≡ dead_items m.now b.now.live_out b.now.items) }
    ensures meaning { IfOk result (λ r. KeepsMeaning m.now b.now.live_out b.now.items r.items) }
    ensures lively { IfOk result (λ r. is_lively m.now b.now.live_out r.items ≡ true) }
    ensures bypassed { IfOk result (λ r. is_bypassed m.now b.now.items ≡ true
        → is_bypassed m.now r.items ≡ true) }
    ensures shared { IfOk result (λ r. is_shared m.now b.now.items ≡ true
        → is_shared m.now r.items ≡ true) }
    ensures no_more { IfOk result (λ r. DoesNoMore m.now b.now.items r.items) }
    ensures live { IfOk result (λ r. r.live_out ≡ b.now.live_out) }
{
    let mut wanted = LiveOperands::new(alloc)?;
    let live = b.live_out.as_slice();
    let items = dead_items(alloc, &mut wanted, m, live, b.items.as_slice())?;
    let r = with_items(alloc, b, items)?;
    Ok(r)
}
