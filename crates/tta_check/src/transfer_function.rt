//! The transfer function of an instruction: what a cycle makes of an abstract state.

ghost use Rattle.std.specs.Prelude.{◌≡◌, ◌≤◌, map, length, IfOk};
ghost use Rattle.tta_code.specs.Cycle.{effects_of};
ghost use Rattle.tta_check.specs.States.{place_of};
ghost use Rattle.tta_check.specs.Steps.{write_into, cell_from};
ghost use Rattle.tta_check.specs.Transfers.{kept_after, ports_after, have_latency};

use crate::effects::{start_on, write_into};
use crate::guard_value::GuardValue;
use crate::packed::Packed;
use crate::start::port_after;
use crate::state::{AbstractState, Cell, Port};
use crate::write::cell_from;
use std::alloc::{AllocError, Global};
use tta_arch::Machine;
use tta_code::Instruction;

/// How an instruction is carried out: the address that a call comes back to, and the guard that is
/// settled, if any.
#[derive(Clone, Copy, Debug)]
pub struct Transfer {
    pub back: u32,
    pub settled: Option<GuardValue>,
}

/// What is kept of a location after an instruction.
fn location_after(
    m: &Machine,
    i: &Instruction,
    how: Transfer,
    cells: &[Packed],
    kept: &Packed,
) -> Cell
    ensures { result ≡ cell_from kept.now.cell cells.now how.settled
        (write_into m.now how.back (place_of kept.now.at) (effects_of m.now i.now)) }
{
    let write = write_into(m, how.back, i, kept.location());
    cell_from(kept.cell(), cells, how.settled, write)
}

/// What is kept of all locations after an instruction.
fn cells_after(
    alloc: Global,
    m: &Machine,
    i: &Instruction,
    how: Transfer,
    cells: &[Packed],
) -> Result<Vec<Packed>, AllocError>
    ensures { IfOk result (λ v. v.items
        ≡ map (kept_after m.now i.now how cells.now) cells.now) }
{
    let mut list = Vec::with_capacity(alloc, cells.len())?;
    for kept in cells {
        let cell = location_after(m, i, how, cells, kept);
        list.push(Packed::of(kept.location(), cell))?;
    }
    Ok(list)
}

/// What is kept of the units after an instruction.
fn ports_from(
    alloc: Global,
    m: &Machine,
    i: &Instruction,
    how: Transfer,
    ports: &[Port],
) -> Result<Vec<Port>, AllocError>
    requires few { length ports.now ≤ 256 }
    requires times { have_latency m.now i.now }
    ensures { IfOk result (λ v. v.items ≡ ports_after m.now i.now how 0 ports.now) }
{
    let mut list = Vec::with_capacity(alloc, ports.len())?;
    for (unit, port) in ports.iter().enumerate() {
        list.push(port_after(how.settled, start_on(m, unit as u8, i), *port))?;
    }
    Ok(list)
}

/// What an abstract state is after an instruction that is carried out like this.
pub fn transferred(
    alloc: Global,
    m: &Machine,
    i: &Instruction,
    how: Transfer,
    state: &AbstractState,
) -> Result<AbstractState, AllocError>
    requires few { length state.now.ports.items ≤ 256 }
    requires times { have_latency m.now i.now }
    ensures cells { IfOk result (λ r. r.cells.items
        ≡ map (kept_after m.now i.now how state.now.cells.items) state.now.cells.items) }
    ensures ports { IfOk result (λ r. r.ports.items
        ≡ ports_after m.now i.now how 0 state.now.ports.items) }
{
    Ok(AbstractState {
        cells: cells_after(alloc, m, i, how, &state.cells)?,
        ports: ports_from(alloc, m, i, how, &state.ports)?,
    })
}
