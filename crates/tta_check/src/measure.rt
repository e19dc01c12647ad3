//! How much an abstract state admits, as a number. It grows at each join that changes anything, and
//! has a bound, so the fixpoint is reached.

ghost use Rattle.std.specs.Prelude.{◌≡◌, ◌≤◌, ◌+◌, ◌*◌, length};
ghost use Rattle.tta_check.specs.Measures.{values_measure, cell_measure, cells_measure, ports_measure};
ghost use Rattle.tta_check.specs.Measures.{measure, greatest_measure};

use crate::packed::Packed;
use crate::state::{AbstractState, Cell, Port};
use crate::values::ValueSet;

/// How much words admit.
fn values_measure(values: ValueSet) -> u64
    ensures value { result ≡ values_measure values }
    ensures most { result ≤ 2 }
{
    match values {
        ValueSet::Nothing => 0,
        ValueSet::One(_) => 1,
        ValueSet::Two(_, _) => 2,
    }
}

/// How much a cell admits.
fn cell_measure(cell: Cell) -> u64
    ensures value { result ≡ cell_measure cell }
    ensures most { result ≤ 3 }
{
    if cell.unset {
        1 + values_measure(cell.values)
    } else {
        values_measure(cell.values)
    }
}

/// How much a unit's results admit.
fn port_measure(port: Port) -> u64
    ensures value { result ≡ port.early + port.late }
    ensures most { result ≤ 4294967550 }
{
    u64::from(port.early) + u64::from(port.late)
}

/// How much the cells of an abstract state admit.
fn cells_measure(cells: &[Packed]) -> u64
    ensures value { result ≡ cells_measure cells.now }
    ensures most { result ≤ 3 * length cells.now }
{
    let _count = cells.len();
    let mut sum: u64 = 0;
    for kept in cells {
        sum += cell_measure(kept.cell());
    }
    sum
}

/// How much the results of all units admit.
fn ports_measure(ports: &[Port]) -> u64
    requires { length ports.now ≤ 256 }
    ensures value { result ≡ ports_measure ports.now }
    ensures most { result ≤ 1099511692800 }
{
    let mut sum: u64 = 0;
    for port in ports {
        sum += port_measure(*port);
    }
    sum
}

/// How much an abstract state admits.
pub fn measure(state: &AbstractState) -> u64
    requires { length state.now.ports.items ≤ 256 }
    ensures value { result ≡ measure state.now }
    ensures most { result ≤ greatest_measure (length state.now.cells.items) }
{
    let _count = state.cells.len();
    cells_measure(&state.cells) + ports_measure(&state.ports)
}
