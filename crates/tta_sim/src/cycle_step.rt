//! What a cycle answers.

/// What became of a cycle.
#[derive(Clone, Copy, Debug, PartialEq, Eq)]
pub enum CycleStep {
    /// The cycle was carried out. `put` is the word that it output, if any, and `took` is whether
    /// it took a word of the input, which it does only where one is left.
    Ran { put: Option<u32>, took: bool },
    /// The run has halted before, and nothing was changed.
    Halted,
    /// The cycle takes a word of the input, and none is left. Nothing was changed.
    Waiting,
    /// This cycle faults, or an earlier one did: 60 for a register that was never written, 61 for a
    /// result port that shows nothing yet, 62 for an operand port that never got a word, 63 for two
    /// results of a unit that would be due at one time, 64 for a control move in the delay of
    /// another, 65 for an address at which there is no instruction. The run stays as it was before.
    Fault(u8),
}
