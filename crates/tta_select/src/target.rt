//! What items are selected for.

ghost use Rattle.std.specs.Prelude.{◌≡◌};
ghost use Rattle.tta_arch.specs.declared.parts.Op.TheVariants.{Ldf, Stf};
ghost use Rattle.tta_connect.specs.Net.{IsNetOf};
ghost use Rattle.tta_select.specs.Select.{call_of};

use tta_arch::Machine;
use tta_connect::{Call, Choice, Net};

/// What items are selected for: a machine with its net, what is chosen on it, and the load and the
/// store of the frame, which are the first that usable units offer.
#[derive(Drop)]
pub struct SelectionTarget<'a> {
    pub machine: &'a Machine,
    /// Which buses join which ports.
    pub net: &'a Net,
    pub choice: &'a Choice,
    pub ldf: Call,
    pub stf: Call,
    ghost net_of: { IsNetOf net.now machine.now },
    ghost loads: { ldf ≡ call_of machine.now choice.now Ldf },
    ghost stores: { stf ≡ call_of machine.now choice.now Stf },
}
