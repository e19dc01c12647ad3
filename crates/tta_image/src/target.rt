//! What an image is read for.

ghost use Rattle.std.specs.Prelude.{◌≡◌};
ghost use Rattle.tta_arch.specs.Layout.{layout_of};
ghost use Rattle.tta_connect.specs.Net.{IsNetOf};

use tta_arch::{Layout, Machine};
use tta_connect::Net;

/// What an image is read for: a machine, with what is prepared of it once, so that no word walks
/// over the machine.
#[derive(Drop)]
pub struct ImageTarget<'a> {
    pub machine: &'a Machine,
    /// Where the fields of an instruction stand.
    pub layout: &'a Layout,
    /// Which buses join which ports.
    pub net: &'a Net,
    ghost laid_out: { layout.now ≡ layout_of machine.now },
    ghost net_of: { IsNetOf net.now machine.now },
}
