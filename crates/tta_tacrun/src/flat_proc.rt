//! The steps of a procedure, over cells.

ghost use Rattle.std.specs.Prelude.{◌≡◌, true};
ghost use Rattle.std.specs.List.{list_all};
ghost use Rattle.tta_tacrun.specs.Flat.{has_cells};

use crate::flat::FlatStep;

/// The steps of a procedure, whose cells there are.
#[derive(Drop)]
pub struct FlatProc {
    /// How many variables the procedure has.
    pub size: u32,
    pub steps: Vec<FlatStep>,
    ghost within: { list_all (has_cells size) steps.items ≡ true },
}
