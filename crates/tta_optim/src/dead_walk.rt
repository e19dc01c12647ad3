//! Writes that nothing reads.

ghost use Rattle.std.specs.Prelude.{◌≡◌, true, IfOk};
ghost use Rattle.std.specs.List.{list_all};
ghost use Rattle.tta_moves.specs.Slots.{has_slot};
ghost use Rattle.tta_optim.specs.Passes.{dead_items};

use crate::wanted::LiveOperands;
use std::alloc::{AllocError, Global};
use tta_arch::Machine;
use tta_moves::Item;

/// The items but those whose write nothing of what stays reads, in one walk up.
pub fn dead_items(
    alloc: Global,
    wanted: &mut LiveOperands,
    m: &Machine,
    live: &[(u8, u8)],
    items: &[Item],
) -> Result<Vec<Item>, AllocError>
    requires { list_all (has_slot m.now) items.now ≡ true }
    ensures { IfOk result (λ v. v.items ≡ dead_items m.now live.now items.now) }
{
    m.rules();
    wanted.end(live);
    let mut kept = Vec::with_capacity(alloc, items.len())?;
    let mut first = items.len();
    while first > 0 {
        first -= 1;
        let x = items[first];
        if wanted.is_dead(x) {
            continue;
        }
        wanted.before(m, x);
        kept.push(x)?;
    }
    kept.reverse();
    Ok(kept)
}
