//! The numbers of machine faults.

/// A register is read that was never written.
pub const UNSET_REGISTER: u8 = 60;

/// A result port is read that shows nothing yet.
pub const UNSET_PORT: u8 = 61;

/// An operation starts whose operand port never got a word.
pub const MISSING_OPERAND: u8 = 62;

/// Two results of a unit would be due at one time.
pub const CLASHING_RESULTS: u8 = 63;

/// A control move takes place in the delay of another.
pub const CONTROL_IN_DELAY: u8 = 64;

/// There is no instruction at the address.
pub const NO_INSTRUCTION: u8 = 65;
