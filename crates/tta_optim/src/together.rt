//! All three passes, one after another.

ghost use Rattle.std.specs.Prelude.{◌≡◌, true, IfOk};
ghost use Rattle.tta_connect.specs.Net.{IsNetOf};
ghost use Rattle.tta_moves.specs.Slots.{is_list};
ghost use Rattle.tta_moves.specs.Forms.{is_bypassed, is_shared, is_lively};
ghost use Rattle.tta_optim.specs.Kept.{KeepsMeaning, DoesNoMore};
ghost use Rattle.tta_optim.specs.Passes.{optimise_items};
ghost use Rattle.tta_optim.specs.Passed.{IsPassed};

use crate::bypass_walk::bypass_items;
use crate::dead_walk::dead_items;
use crate::notes::Notes;
use crate::passes::with_items;
use crate::share_walk::share_items;
use crate::wanted::LiveOperands;
use std::alloc::{AllocError, Global};
use tta_arch::Machine;
use tta_connect::{Net, TargetMachine};
use tta_moves::BlockList;

/// A list after each of the three passes.
#[derive(Drop)]
pub struct Passed {
    /// With reads served by result ports.
    pub bypassed: BlockList,
    /// After that without the operands that their ports have already.
    pub shared: BlockList,
    /// After that without the writes that nothing reads.
    pub lively: BlockList,
}

impl Passed {
    /// The list after all three passes.
    pub fn last(&self) -> &BlockList
        ensures { result.now ≡ self.now.lively }
    {
        &self.lively
    }
}

/// The three passes with the tables that they keep, which serve one list after another.
#[derive(Drop)]
pub struct Passes {
    notes: Notes,
    wanted: LiveOperands,
}

impl Passes {
    /// The passes for any number of lists. It fails only where there is no memory.
    pub fn new(alloc: Global) -> Result<Self, AllocError> {
        let notes = Notes::new(alloc)?;
        let wanted = LiveOperands::new(alloc)?;
        Ok(Passes { notes, wanted })
    }

    /// A list after each of the three passes: it bypasses, shares and leaves dead writes out, in this
    /// order. It fails only where there is no memory.
    pub fn passed(
        &mut self,
        alloc: Global,
        b: &BlockList,
        on: &TargetMachine<'_>,
    ) -> Result<Passed, AllocError>
        requires list { is_list on.now.machine.now b.now.items ≡ true }
        ensures { IfOk result (λ r. IsPassed on.now.machine.now b.now r) }
    {
        let live = b.live_out.as_slice();
        let m = on.machine;
        let one = bypass_items(alloc, &mut self.notes, on, b.items.as_slice())?;
        let bypassed = with_items(alloc, b, one)?;
        let two = share_items(alloc, &mut self.notes, m, bypassed.items.as_slice())?;
        let shared = with_items(alloc, b, two)?;
        let three = dead_items(alloc, &mut self.wanted, m, live, shared.items.as_slice())?;
        let lively = with_items(alloc, b, three)?;
        Ok(Passed {
            bypassed,
            shared,
            lively,
        })
    }
}

/// Bypasses, shares and leaves dead writes out, in this order. It fails only where there is no
/// memory. Whoever has many lists keeps `Passes` instead.
pub fn optimise(
    alloc: Global,
    b: &BlockList,
    m: &Machine,
    net: &Net,
) -> Result<BlockList, AllocError>
    requires net { IsNetOf net.now m.now }
    requires list { is_list m.now b.now.items ≡ true }
    ensures are { IfOk result (λ r. r.items ≡ optimise_items m.now b.now.live_out b.now.items) }
    ensures meaning { IfOk result (λ r. KeepsMeaning m.now b.now.live_out b.now.items r.items) }
    ensures bypassed { IfOk result (λ r. is_bypassed m.now r.items ≡ true) }
    ensures shared { IfOk result (λ r. is_shared m.now r.items ≡ true) }
    ensures lively { IfOk result (λ r. is_lively m.now b.now.live_out r.items ≡ true) }
    ensures no_more { IfOk result (λ r. DoesNoMore m.now b.now.items r.items) }
    ensures live { IfOk result (λ r. r.live_out ≡ b.now.live_out) }
{
    let on = TargetMachine { machine: m, net };
    let mut passes = Passes::new(alloc)?;
    let Passed { lively, .. } = passes.passed(alloc, b, &on)?;
    Ok(lively)
}
