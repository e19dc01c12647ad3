//! What a text is written of.

ghost use Rattle.std.specs.Prelude.{◌≡◌, ◌<◌, ◌^◌};
ghost use Rattle.std.specs.List.{sum_by};
ghost use Rattle.tta_arch.specs.Layout.{layout_of};

use tta_arch::{Layout, Machine};

/// A machine with its layout.
#[derive(Clone, Copy)]
pub struct On<'a> {
    pub m: &'a Machine,
    pub layout: &'a Layout,
    ghost layout_is: { layout.now ≡ layout_of m.now },
    ghost fits: { sum_by (λ f. f.width) layout.now.buses < 2 ^ 31 },
}
