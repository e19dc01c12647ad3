//! What a turn answers.

/// What became of a core's turn.
#[derive(Clone, Copy, Debug, PartialEq, Eq)]
pub enum StepResult {
    /// The core made a cycle.
    Ran,
    /// The core has halted before, and nothing was changed.
    Halted,
    /// The core's next cycle takes a word from its queue, and there is none. Nothing was changed.
    Waiting,
    /// The core's next cycle faults, or an earlier one did: the number is that of the fault. The core
    /// stays as it was before.
    Fault(u8),
}
