//! What a line says.

/// A line of what a command prints. Every number is printed in decimal.
#[derive(Clone, Copy, Debug, PartialEq, Eq)]
pub enum Line {
    /// A word that the run output: `W`.
    Word(u32),
    /// The run has halted: `halted`.
    Halted,
    /// The run goes on past its bound: `running`.
    Running,
    /// The run waits for a word of the input, and none is left: `waiting`.
    Waiting,
    /// The machine has faulted, after so many cycles without a fault: `fault CODE CYCLE`.
    Fault { code: u8, cycle: u64 },
    /// A data word that is not 0, at its address: `mem A W`.
    Memory { address: u32, word: u32 },
    /// How many steps of the program were carried out: `steps K`.
    Steps(u64),
    /// How many cycles were carried out: `cycles K`.
    Cycles(u64),
    /// How many steps a program has: `lines P`.
    Lines(u64),
    /// How many instructions a code has: `words W`.
    Words(u64),
    /// How many words were output: `outputs K`.
    Outputs(u64),
    /// The number of a core, before what it has output: `core K`.
    Core(u8),
    /// Whether two runs have output the same and left the same data words: `equal yes` or
    /// `equal no`.
    Equal(bool),
}
