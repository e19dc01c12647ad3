//! The text of cores that are joined by queues.

ghost use Rattle.std.specs.Prelude.{◌≡◌, ◌≤◌, length, map, IfOk};
ghost use Rattle.std.specs.List.{AllByRecursion};
ghost use Rattle.tta_ops.specs.Set.{stated};
ghost use Rattle.tta_netlist.specs.Net.{AreSound, net_text};

use crate::cores::{ends_of, push_modules};
use std::alloc::{AllocError, Global};
use tta_kahn::Core;
use tta_ops::UnitSet;
use tta_wiring::{push_queues, push_top};

/// How cores are joined.
#[derive(Clone, Copy)]
pub struct Net<'a> {
    pub units: &'a UnitSet,
    /// Which core feeds each.
    pub feeds: &'a [Option<u8>],
    /// How many words the queue before each core has, as a power of two.
    pub depths: &'a [u8],
}

/// The text of cores that are joined by queues, as modules of Verilog: `tta_net` that joins them, the queue
/// before each core, and the core. The data space of each core begins with these words. `tta_net` has
/// ports for the words of a core that no other feeds, if its machine can take some.
pub fn write_net(
    alloc: Global,
    net: &Net<'_>,
    cores: Vec<Core>,
    memories: &[Vec<u32>],
) -> Result<Vec<u8>, AllocError>
    requires few { length cores.items ≤ 255 }
    requires feeds { length net.now.feeds.now ≤ 255 }
    requires depths { length net.now.depths.now ≤ 255 }
    requires sizes { AllByRecursion (λ k. k ≤ 16) net.now.depths.now }
    requires sound { AreSound cores.items (map (λ v. v.items) memories.now) }
    ensures { let U = stated unit_meaning net.now.units.now in
        let MEMORIES = map (λ v. v.items) memories.now in
        IfOk result (λ v. v.items
        ≡ net_text U cores.items MEMORIES net.now.feeds.now net.now.depths.now) }
{
    let ends = ends_of(alloc, cores.as_slice())?;
    let mut out = Vec::new(alloc);
    push_top(&mut out, ends.as_slice(), net.feeds)?;
    push_queues(&mut out, 0, net.depths)?;
    push_modules(alloc, &mut out, net.units, 0, cores, memories)?;
    Ok(out)
}
