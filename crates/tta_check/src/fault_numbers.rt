//! The codes of what a check finds: the numbers of machine faults, and of what it cannot tell.

/// A register may be read that was never written.
pub const UNSET_REGISTER: u8 = 60;

/// A result port may be read that shows nothing yet.
pub const UNSET_PORT: u8 = 61;

/// An operation may start whose operand port never got a word.
pub const MISSING_OPERAND: u8 = 62;

/// Two results of a unit may be due at one time.
pub const CLASHING_RESULTS: u8 = 63;

/// A control move may take place in the delay of another.
pub const CONTROL_IN_DELAY: u8 = 64;

/// The run may come to an address where there is no instruction.
pub const NO_INSTRUCTION: u8 = 65;

/// A check cannot tell where a jump leads.
pub const UNKNOWN_TARGET: u8 = 80;
