//! What a step answers.

/// What became of a step.
#[derive(Clone, Copy, Debug, PartialEq, Eq)]
pub enum SeqStep {
    /// The step was carried out. It output this word, if any, and it took a word of the input or
    /// did not.
    Ran { put: Option<u32>, took: bool },
    /// The run has halted before, and nothing was changed.
    Halted,
    /// The step takes a word of the input, and none is left. Nothing was changed.
    Waiting,
}
