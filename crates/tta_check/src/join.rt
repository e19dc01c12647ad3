//! The join of abstract states: what may hold in either.

ghost use Rattle.std.specs.Prelude.{◌≡◌, length, IfOk};
ghost use Rattle.tta_check.specs.Joins.{join_kept, join_list, join_port, join_ports};
ghost use Rattle.tta_check.specs.Joins.{IsJoined};

use crate::packed::Packed;
use crate::state::{AbstractState, Port, join_cells};
use std::alloc::{AllocError, Global};

/// What is kept of a place in both.
fn join_kept(kept: &Packed, other: &Packed) -> Packed
    ensures { result ≡ join_kept kept.now other.now }
{
    Packed::of(kept.location(), join_cells(kept.cell(), other.cell()))
}

/// What is kept of a unit in both.
fn join_port(port: Port, other: Port) -> Port
    ensures { result ≡ join_port port other }
{
    Port {
        early: port.early.max(other.early),
        late: port.late | other.late,
    }
}

/// What is kept of the places of two abstract states.
fn both_cells(alloc: Global, cells: &[Packed], other: &[Packed]) -> Result<Vec<Packed>, AllocError>
    requires { length cells.now ≡ length other.now }
    ensures { IfOk result (λ v. v.items ≡ join_list cells.now other.now) }
{
    let mut list = Vec::with_capacity(alloc, cells.len())?;
    for (at, kept) in cells.iter().enumerate() {
        list.push(join_kept(kept, &other[at]))?;
    }
    Ok(list)
}

/// What is kept of the units of two abstract states.
fn both_ports(alloc: Global, ports: &[Port], other: &[Port]) -> Result<Vec<Port>, AllocError>
    requires { length ports.now ≡ length other.now }
    ensures { IfOk result (λ v. v.items ≡ join_ports ports.now other.now) }
{
    let mut list = Vec::with_capacity(alloc, ports.len())?;
    for (at, port) in ports.iter().enumerate() {
        list.push(join_port(*port, other[at]))?;
    }
    Ok(list)
}

/// The join of two abstract states of the same places.
pub fn join(
    alloc: Global,
    state: &AbstractState,
    other: &AbstractState,
) -> Result<AbstractState, AllocError>
    requires cells { length state.now.cells.items ≡ length other.now.cells.items }
    requires ports { length state.now.ports.items ≡ length other.now.ports.items }
    ensures { IfOk result (λ both. IsJoined state.now other.now both) }
{
    Ok(AbstractState {
        cells: both_cells(alloc, &state.cells, &other.cells)?,
        ports: both_ports(alloc, &state.ports, &other.ports)?,
    })
}
