//! What steps stand on.

use tta_ops::UnitSet;
use tta_program::Program;

/// What steps stand on: the program, and the units that say what its operations mean.
#[derive(Clone, Copy)]
pub struct Basis<'a> {
    pub p: &'a Program,
    pub units: &'a UnitSet,
}
