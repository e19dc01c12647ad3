//! Abstract states: what may hold of the walks that stand at one program point.

ghost use Rattle.std.specs.Prelude.{◌≡◌};
ghost use Rattle.tta_check.specs.States.{place_of, cell_of, join_cells, port_of};

use crate::location::{Location, same_location};
use crate::packed::Packed;
use crate::values::{ValueSet, join_words};

/// What may hold of a place: that it was never written, and the words that it keeps.
#[derive(Clone, Copy, Debug)]
pub struct Cell {
    pub unset: bool,
    pub values: ValueSet,
}

/// A place with what may hold of it. An abstract state keeps it packed.
#[derive(Clone, Copy, Debug)]
pub struct Kept {
    pub at: Location,
    pub cell: Cell,
}

/// What may hold of the results of a unit.
#[derive(Clone, Copy, Debug)]
pub struct Port {
    /// After how many cycles a result has come at last, in every walk; 16 is never.
    pub early: u8,
    /// The results that may be to come: bit k is due in k cycles.
    pub late: u32,
}

/// What may hold of the walks that stand at one program point: of each place that some walk has
/// written, and of each unit.
#[derive(Drop)]
pub struct AbstractState {
    pub cells: Vec<Packed>,
    pub ports: Vec<Port>,
}

/// What is kept of a place.
pub fn cell_of(cells: &[Packed], location: Location) -> Cell
    ensures { result ≡ cell_of cells.now (place_of location) }
{
    for kept in cells {
        if same_location(kept.location(), location) {
            return kept.cell();
        }
    }
    Cell {
        unset: true,
        values: ValueSet::Nothing,
    }
}

/// What is kept of both.
pub fn join_cells(a: Cell, b: Cell) -> Cell
    ensures { result ≡ join_cells a b }
{
    Cell {
        unset: a.unset || b.unset,
        values: join_words(a.values, b.values),
    }
}

/// What is kept of the results of a unit.
pub fn port_of(ports: &[Port], unit: u8) -> Port
    ensures { result ≡ port_of ports.now unit }
{
    match ports.get(usize::from(unit)) {
        Some(port) => *port,
        None => Port { early: 16, late: 0 },
    }
}
