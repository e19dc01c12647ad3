//! Instructions in the form in which they are carried out.
//!
//! A run carries out one instruction again and again. So its moves are sorted once, by what they
//! do, and each end is looked up in the machine once.

use crate::control::ControlKind;
use tta_arch::UnitOp;
use tta_list::Items;

/// Where a move takes its word from.
#[derive(Clone, Copy)]
pub enum DecodedSource {
    Word(u32),
    /// The place with this number in the row of places.
    Place(u32),
    /// The result port of a unit.
    Port(u8),
}

/// A guard: the number of its register's place, and whether it lets a move act where that is 0.
#[derive(Clone, Copy)]
pub struct DecodedGuard {
    pub place: u32,
    pub inverted: bool,
}

/// What a move reads.
#[derive(Clone, Copy)]
pub struct Reading {
    pub guard: Option<DecodedGuard>,
    pub src: DecodedSource,
}

/// A move that writes a place, which keeps only the low bit where it is narrow.
#[derive(Clone, Copy)]
pub struct DecodedWrite {
    pub reading: Reading,
    pub place: u32,
    pub narrow: bool,
}

/// A move that starts an operation of a unit.
#[derive(Clone, Copy)]
pub struct DecodedStart {
    pub reading: Reading,
    pub unit: u8,
    pub does: UnitOp,
}

/// A control move.
#[derive(Clone, Copy)]
pub struct DecodedControl {
    pub reading: Reading,
    pub kind: ControlKind,
}

/// An instruction: its moves by what they do. A long immediate is a write like any other.
#[derive(Drop)]
pub struct Line {
    pub writes: Items<DecodedWrite>,
    pub starts: Items<DecodedStart>,
    pub controls: Items<DecodedControl>,
    /// Whether no operation stores, outputs or takes a word, and there is no control move, as in most
    /// instructions.
    pub pure: bool,
}
