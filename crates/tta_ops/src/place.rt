//! Where an operation stands.

/// How many words an operation takes and where it stands: the unit, and the index in the unit.
#[derive(Clone, Copy, Debug)]
pub struct Place {
    pub arity: u8,
    pub unit: usize,
    pub index: usize,
}
