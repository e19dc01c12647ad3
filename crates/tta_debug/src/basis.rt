//! What the cycles of a session stand on.

use tta_arch::Machine;
use tta_code::Code;
use tta_ops::UnitSet;

/// Code for a machine, the operation units that carry it out, and the words of the input.
#[derive(Clone, Copy)]
pub struct Basis<'a> {
    pub m: &'a Machine,
    pub code: &'a Code,
    pub units: &'a UnitSet,
    pub input: &'a [u32],
}
