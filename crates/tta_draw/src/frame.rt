//! Where an element stands.

/// A rectangle of a picture. Its corner is the left upper one, and its measures are pixels.
#[derive(Clone, Copy, Debug, PartialEq, Eq)]
pub struct Frame {
    pub x: u64,
    pub y: u64,
    pub width: u64,
    pub height: u64,
}

/// Where a text begins: at the left end of its base line.
#[derive(Clone, Copy, Debug, PartialEq, Eq)]
pub struct Spot {
    pub x: u64,
    pub y: u64,
}
