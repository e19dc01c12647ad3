//! What a run holds, and what its cycles need to know of the machine.

use crate::control::Control;
use crate::results::Part;
use crate::store::{CycleBuffers, Store};
use tta_arch::Machine;
use tta_code::Code;
use tta_ops::UnitSet;

/// What a run holds but for its results and its code: its words, its control, and room for what a
/// cycle does.
#[derive(Drop)]
pub struct Run {
    pub store: Store,
    pub control: Control,
    pub buffers: CycleBuffers,
}

/// What a cycle needs to know of its machine.
#[derive(Drop)]
pub struct Context<'a> {
    /// The machine's units in the region.
    pub part: Part,
    /// A control move takes effect so many cycles after the next one.
    pub delay: u8,
    /// What operations mean.
    pub units: &'a UnitSet,
}

/// What the cycles of a run are made with: the machine, its code and the operation units.
#[derive(Drop)]
pub struct Basis<'a> {
    pub m: &'a Machine,
    pub code: &'a Code,
    pub units: &'a UnitSet,
}
