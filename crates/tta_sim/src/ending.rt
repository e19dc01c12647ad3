//! What is reported of a whole run.

/// How a run stands.
#[derive(Clone, Copy, Debug, PartialEq, Eq)]
pub enum Ending {
    /// It goes on.
    Running,
    /// It has halted.
    Halted,
    /// It is at a fault of this number, after `cycle` cycles without one.
    Fault { number: u8, cycle: u64 },
}
