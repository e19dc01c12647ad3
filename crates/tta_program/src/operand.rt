//! Operands, and the relations of conditions.

/// An operand: a variable of the procedure, or a constant word.
#[derive(Clone, Copy, Debug, PartialEq, Eq)]
pub enum Src {
    Var(u32),
    Word(u32),
}

/// The relation of a condition.
#[derive(Clone, Copy, Debug, PartialEq, Eq)]
pub enum Rel {
    Eq,
    Ne,
    /// Less, as signed numbers.
    Lt,
    /// Greater or equal, as signed numbers.
    Ge,
    /// Less, as unsigned numbers.
    Ltu,
    /// Greater or equal, as unsigned numbers.
    Geu,
}
