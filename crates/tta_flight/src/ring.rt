//! The ring of one unit.

ghost use Rattle.std.specs.Prelude.{◌≡◌, ◌<◌, ◌≤◌, ◌+◌, length, max, replicate};
ghost use Rattle.std.specs.Prelude.{None, Some, IfOk};
ghost use Rattle.tta_flight.specs.Rings.{place_of, turned, rings_from, size_of};

use std::alloc::{AllocError, Global};

/// Where a unit's results are: what shows, and a cell for each cycle to come, the next one and so many
/// after it as its longest delay.
#[derive(Clone, Copy)]
pub struct Ring {
    /// The first of its cells.
    pub first: u32,
    /// The longest delay.
    pub longest: u8,
    /// How far after the first cell that of the next cycle is.
    pub at: u8,
    /// After so many turns each of its cells is empty, if nothing is started.
    pub turns: u16,
    /// What the unit's port shows.
    pub shown: Option<u32>,
}

impl Ring {
    /// The cell of what is due so many cycles after the next one.
    pub fn place(self, past: u8) -> usize
        requires soon { past ≤ self.longest }
        requires at { self.at ≤ self.longest }
        requires few { self.first + self.longest < 65536 }
        ensures { result ≡ place_of self past }
    {
        let size = usize::from(self.longest) + 1;
        let along = usize::from(self.at) + usize::from(past);
        if along < size {
            self.first as usize + along
        } else {
            self.first as usize + (along - size)
        }
    }

    /// The cell of what is due in the next cycle.
    pub fn next(self) -> usize
        requires at { self.at ≤ self.longest }
        requires few { self.first + self.longest < 65536 }
        ensures { result ≡ place_of self 0 }
    {
        self.first as usize + usize::from(self.at)
    }

    /// The ring once it has turned to the next cycle.
    pub fn turned(self) -> Ring
        requires { self.at ≤ self.longest }
        ensures ring { result ≡ turned self }
        ensures at { result.at ≤ result.longest }
        ensures first { result.first ≡ self.first }
        ensures longest { result.longest ≡ self.longest }
    {
        let at = if self.at == self.longest {
            0
        } else {
            self.at + 1
        };
        Ring {
            first: self.first,
            longest: self.longest,
            at,
            turns: self.turns.saturating_sub(1),
            shown: self.shown,
        }
    }

    /// Turns to the next cycle. It is written field by field, so that the fields can be read again at
    /// once.
    pub fn turn(&mut self)
        requires { self.old.at ≤ self.old.longest }
        ensures { self.new ≡ turned self.old }
    {
        let next = self.turned();
        self.at = next.at;
        self.turns = next.turns;
    }

    /// Shows a result.
    pub fn show(&mut self, value: u32)
        ensures { self.new ≡ record self.old { shown = Some value } }
    {
        self.shown = Some(value);
    }

    /// Expects a result that is due so many cycles after the next one.
    pub fn expect(&mut self, past: u8)
        ensures { self.new ≡ record self.old { turns = max self.old.turns (past + 1) } }
    {
        self.turns = self.turns.max(u16::from(past) + 1);
    }
}

/// One ring for each unit, one after another.
pub fn carve(alloc: Global, longest: &[u8]) -> Result<Vec<Ring>, AllocError>
    requires { length longest.now ≤ 256 }
    ensures { IfOk result (λ v. v.items ≡ rings_from 0 longest.now) }
{
    let mut rings = Vec::new(alloc);
    let mut first = 0;
    for l in longest {
        let ring = Ring {
            first,
            longest: *l,
            at: 0,
            turns: 0,
            shown: None,
        };
        rings.push(ring)?;
        first += u32::from(*l) + 1;
    }
    Ok(rings)
}

/// How many cells the rings have.
pub fn size(longest: &[u8]) -> usize
    requires { length longest.now ≤ 256 }
    ensures size { result ≡ size_of 0 longest.now }
    ensures few { result ≤ 65536 }
{
    let mut cells = 0;
    for l in longest {
        cells += usize::from(*l) + 1;
    }
    cells
}

/// So many cells that have no result.
pub fn empty(alloc: Global, count: usize) -> Result<Vec<Option<u32>>, AllocError>
    ensures { IfOk result (λ v. v.items ≡ replicate count None) }
{
    let cells = vec![in alloc; None; count]?;
    Ok(cells)
}
