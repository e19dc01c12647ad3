//! The parts of a machine by their names.

/// A part of a machine that assembly can name, by its place in its list.
#[derive(Clone, Copy)]
pub enum Part {
    File(u8),
    Imm(u8),
    Unit(u8),
    Template(u8),
}
