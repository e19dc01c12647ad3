//! The numbers of machine faults, and how wide the port is that tells one.

/// A register is read that was never written.
pub const UNSET_REGISTER: u64 = 60;

/// A result port is read that shows nothing yet.
pub const UNSET_PORT: u64 = 61;

/// An operation starts whose operand port never got a word.
pub const MISSING_OPERAND: u64 = 62;

/// Two results of a unit would be due at one time.
pub const CLASHING_RESULTS: u64 = 63;

/// A control move takes place in the delay of another.
pub const CONTROL_IN_DELAY: u64 = 64;

/// There is no instruction at the address.
pub const NO_INSTRUCTION: u64 = 65;

/// How many bits the number of a fault has, 0 where there is none.
pub const FAULT_WIDTH: u32 = 7;
