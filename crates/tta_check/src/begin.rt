//! The first abstract state.

ghost use Rattle.std.specs.Prelude.{◌≡◌, map, IfOk};
ghost use Rattle.tta_check.specs.Joins.{unwritten_at, IsFirst};

use crate::location::Location;
use crate::packed::Packed;
use crate::state::{AbstractState, Cell, Port};
use crate::values::ValueSet;
use std::alloc::{AllocError, Global};

/// What is kept of locations that no walk has written.
fn unwritten(alloc: Global, locations: &[Location]) -> Result<Vec<Packed>, AllocError>
    ensures { IfOk result (λ v. v.items ≡ map unwritten_at locations.now) }
{
    let mut list = Vec::with_capacity(alloc, locations.len())?;
    let nothing = Cell {
        unset: true,
        values: ValueSet::Nothing,
    };
    for location in locations {
        list.push(Packed::of(*location, nothing))?;
    }
    Ok(list)
}

/// The first abstract state, of these locations and so many units.
pub fn first_state(
    alloc: Global,
    locations: &[Location],
    units: usize,
) -> Result<AbstractState, AllocError>
    ensures { IfOk result (λ r. IsFirst locations.now units r) }
{
    Ok(AbstractState {
        cells: unwritten(alloc, locations)?,
        ports: vec![in alloc; Port { early: 16, late: 0 }; units]?,
    })
}
