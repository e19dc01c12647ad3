//! Lists are placed by first fit, each once.

ghost use Rattle.std.specs.Prelude.{◌≡◌, true, IfOk};
ghost use Rattle.std.specs.List.{list_all};
ghost use Rattle.tta_moves.specs.Slots.{is_list};
ghost use Rattle.tta_compiler_laws.specs.Linking.{AreFirstFits};
ghost use Rattle.tta_compiler_laws.specs.Room.{AreRoomy};

use std::alloc::{AllocError, Global};
use tta_connect::TargetMachine;
use tta_moves::{BlockList, Placed};
use tta_sched::Placer;

/// A first fit of each list, by a placer that is lent.
fn place_each(
    alloc: Global,
    placer: &mut Placer,
    lists: &[BlockList],
    on: &TargetMachine<'_>,
) -> Result<Vec<Placed>, AllocError>
    requires lists { list_all (λ b. is_list on.now.machine.now b.items) lists.now ≡ true }
    ensures first { IfOk result (λ ps. AreFirstFits on.now.machine.now lists.now ps.items) }
    ensures roomy { IfOk result (λ ps. AreRoomy on.now.machine.now lists.now ps.items) }
{
    let mut ps = Vec::new(alloc);
    for b in lists {
        let p = placer.place(alloc, b, on)?;
        ps.push(p)?;
    }
    Ok(ps)
}

/// A first fit of each list, as it is. The only error is out of memory.
pub fn place_all(
    alloc: Global,
    lists: &[BlockList],
    on: &TargetMachine<'_>,
) -> Result<Vec<Placed>, AllocError>
    requires lists { list_all (λ b. is_list on.now.machine.now b.items) lists.now ≡ true }
    ensures first { IfOk result (λ ps. AreFirstFits on.now.machine.now lists.now ps.items) }
    ensures roomy { IfOk result (λ ps. AreRoomy on.now.machine.now lists.now ps.items) }
{
    let mut placer = Placer::new(alloc, on.machine)?;
    place_each(alloc, &mut placer, lists, on)
}
