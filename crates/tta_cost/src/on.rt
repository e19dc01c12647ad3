//! What is counted: a machine with its layout and its operations.

ghost use Rattle.std.specs.Prelude.{◌≡◌};
ghost use Rattle.tta_arch.specs.Layout.{layout_of};

use tta_arch::{Layout, Machine};

/// A machine with its layout, and the depths of its operations by their numbers.
#[derive(Clone, Copy)]
pub struct On<'a> {
    pub m: &'a Machine,
    pub layout: &'a Layout,
    pub applied: &'a [u64],
    ghost layout_is: { layout.now ≡ layout_of m.now },
}
