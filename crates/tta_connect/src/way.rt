//! How a word gets from one end to another.

ghost use Rattle.std.specs.Prelude.{◌≡◌};
ghost use Rattle.tta_connect.specs.Net.{IsNetOf};
ghost use Rattle.tta_connect.specs.Ways.{goes_by_hub, way};

use crate::ends::{from, into, some_bus};
use crate::net::Net;
use crate::target_machine::TargetMachine;
use tta_arch::{Dest, GuardRef, Machine, Source};

/// How a word gets from one end to another.
#[derive(Clone, Copy, Debug, PartialEq, Eq)]
pub enum Way {
    /// Some bus joins the ends.
    Direct,
    /// The source is joined to the hub, and the hub to the destination.
    Hub,
}

/// Whether the source is joined to the hub, and the hub to the destination with the guard.
fn goes_by_hub(
    on: &TargetMachine<'_>,
    hub: u8,
    src: Source,
    dst: Dest,
    guard: Option<GuardRef>,
) -> bool
    ensures { result ≡ goes_by_hub on.now.machine.now hub src dst guard }
{
    some_bus(on, src, into(hub), None) && some_bus(on, from(hub), dst, guard)
}

impl Net {
    /// How a word gets from one end to another with a guard: over one bus, else by the hub, else not
    /// at all.
    pub fn way(
        &self,
        m: &Machine,
        hub: u8,
        src: &Source,
        dst: &Dest,
        guard: &Option<GuardRef>,
    ) -> Option<Way>
        requires { IsNetOf self.now m.now }
        ensures { result ≡ way m.now hub src.now dst.now guard.now }
    {
        let on = TargetMachine {
            machine: m,
            net: self,
        };
        if some_bus(&on, *src, *dst, *guard) {
            return Some(Way::Direct);
        }
        if goes_by_hub(&on, hub, *src, *dst, *guard) {
            return Some(Way::Hub);
        }
        None
    }
}
