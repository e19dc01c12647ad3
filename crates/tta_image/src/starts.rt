//! Where to look first for a source or a destination of a bus.
//!
//! The registers of a file, those of an immediate unit and the operations of a unit stand one after
//! another in the lists of a bus. So a place is found by where its part begins, with no search.

use tta_arch::{BusFields, Dest, Source};

/// The first number of immediate units, after those of files.
const IMMS: usize = 8;

/// The first number of units, after those of files and immediate units.
const UNITS: usize = 12;

/// The number of the return address, after those of units.
const RETURN: usize = 44;

/// The first number of the operand ports of units, after those of operations.
const OPERANDS: usize = 44;

/// The first number of what control can do, after those of units.
const CONTROL: usize = 76;

/// Where the parts of a bus begin in its lists, as far as they were seen there. A place that is
/// taken from it is looked at before it is used, so nothing hangs on it but time.
#[derive(Clone, Copy)]
pub struct Starts {
    sources: [usize; 45],
    dests: [usize; 79],
}

/// The number of the part that a source belongs to, and how far the source is from its begin.
fn source_part(src: Source) -> (usize, usize) {
    match src {
        Source::Reg { file, index } => (usize::from(file), usize::from(index)),
        Source::Imm { unit, index } => (IMMS + usize::from(unit), usize::from(index)),
        Source::Shown { unit } => (UNITS + usize::from(unit), 0),
        Source::Ra | Source::Value(_) => (RETURN, 0),
    }
}

/// The number of the part that a destination belongs to, and how far it is from its begin.
fn dest_part(dst: Dest) -> (usize, usize) {
    match dst {
        Dest::Reg { file, index } => (usize::from(file), usize::from(index)),
        Dest::Trigger { unit, op } => (UNITS + usize::from(unit), usize::from(op)),
        Dest::Operand { unit } => (OPERANDS + usize::from(unit), 0),
        Dest::Jump => (CONTROL, 0),
        Dest::Call => (CONTROL + 1, 0),
        Dest::Halt => (CONTROL + 2, 0),
    }
}

/// Notes where a part begins, where the place is that of its first.
fn note(starts: &mut [usize], part: (usize, usize), place: usize) {
    if part.1 == 0 && part.0 < starts.len() {
        starts[part.0] = place;
    }
}

/// The place after the begin of a part.
fn place_in(starts: &[usize], part: (usize, usize)) -> usize {
    match starts.get(part.0) {
        Some(start) => start.saturating_add(part.1),
        None => 0,
    }
}

impl Starts {
    /// Where the parts of a bus begin.
    pub fn of(fields: &BusFields) -> Self {
        let mut sources = [0; 45];
        let mut dests = [0; 79];
        for (place, src) in fields.sources.as_slice().iter().enumerate() {
            note(&mut sources, source_part(*src), place);
        }
        for (place, dst) in fields.dests.as_slice().iter().enumerate() {
            note(&mut dests, dest_part(*dst), place);
        }
        Starts { sources, dests }
    }

    /// The place to look at first for a source.
    pub fn of_source(&self, src: Source) -> usize {
        place_in(&self.sources, source_part(src))
    }

    /// The place to look at first for a destination.
    pub fn of_dest(&self, dst: Dest) -> usize {
        place_in(&self.dests, dest_part(dst))
    }
}
