//! The rows that an arrow or a bar passes.

/// From one row to another: from the last delay slot of a jump to its target, or from the row that starts
/// a result to the last in which it is on the way.
#[derive(Clone, Copy, Debug, PartialEq, Eq)]
pub struct Span {
    pub from: u32,
    pub to: u32,
}

/// A span, and the lane in which it stands.
#[derive(Clone, Copy, Debug, PartialEq, Eq)]
pub struct Laid {
    pub span: Span,
    pub lane: u8,
}
