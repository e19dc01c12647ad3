//! Where the code of each block begins.

ghost use Rattle.std.specs.Prelude.{◌≡◌, ◌<◌, ◌^◌, IfOk};
ghost use Rattle.tta_link.specs.Linked.{starts_from};
ghost use Rattle.tta_link.specs.Blocks.{total_length};

use std::alloc::{AllocError, Global};
use tta_moves::Placed;

/// The address at which the code of each block begins, and at last the one where the code ends. It
/// fails only where there is no memory.
pub fn block_starts(alloc: Global, placed: &[Placed]) -> Result<Vec<u32>, AllocError>
    requires { total_length placed.now < 2 ^ 32 }
    ensures { IfOk result (λ v. v.items ≡ starts_from 0 placed.now) }
{
    let mut starts = Vec::new(alloc);
    let mut next = 0;
    for p in placed {
        starts.push(next)?;
        next += p.length;
    }
    starts.push(next)?;
    Ok(starts)
}
