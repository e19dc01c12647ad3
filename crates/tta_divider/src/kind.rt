//! What a divider makes.

/// What a divider makes of two words.
#[derive(Clone, Copy, Debug, PartialEq, Eq)]
pub enum Kind {
    /// How often the second goes into the first.
    Quotient,
    /// What is left then.
    Remainder,
}
