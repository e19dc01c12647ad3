//! The ends of a move, and the guard that may stop it.

/// Where a move takes its word from.
#[derive(Clone, Copy, Debug, PartialEq, Eq)]
pub enum Source {
    /// A register of a file.
    Reg { file: u8, index: u8 },
    /// A register of an immediate unit.
    Imm { unit: u8, index: u8 },
    /// The result port of a unit.
    Shown { unit: u8 },
    /// The return address `gcu.ra`.
    Ra,
    /// A word in the bus's short immediate field.
    Value(u32),
}

/// Where a move brings its word to.
#[derive(Clone, Copy, Debug, PartialEq, Eq)]
pub enum Dest {
    /// A register of a file.
    Reg { file: u8, index: u8 },
    /// The operand port of a unit.
    Operand { unit: u8 },
    /// The trigger port of a unit, which starts its operation `op`.
    Trigger { unit: u8, op: u8 },
    /// The trigger port of control: go on at the moved address.
    Jump,
    /// The trigger port of control: go on at the moved address, and keep the return address.
    Call,
    /// The trigger port of control: end the run.
    Halt,
}

/// A register of a file of width 1 that lets a move act where it is 1, or where it is 0 if
/// inverted.
#[derive(Clone, Copy, Debug, PartialEq, Eq)]
pub struct GuardRef {
    pub file: u8,
    pub index: u8,
    pub inverted: bool,
}
