//! Whether any run of code can fault.

ghost use Rattle.std.specs.Prelude.{IfOk};
ghost use Rattle.tta_code.specs.Legal.{IsLegalCode};
ghost use Rattle.tta_check.specs.Statement.{Checks};

use crate::begin::first_state;
use crate::entries::EntryTable;
use crate::locations::locations_of;
use crate::point::ProgramPoint;
use crate::verdict::Verdict;
use crate::visit::Successor;
use std::alloc::{AllocError, Global};
use tta_arch::Machine;
use tta_code::Code;

/// Whether any run of code can fault, by all walks of it: Safe exactly where no walk has a code and
/// no two disagree, and else a code that a walk has at a word, or 80 where two disagree. Code that
/// is safe never faults. The code must be legal for the machine. It fails only where there is no
/// memory.
///
/// This is a forward data-flow analysis. A program point is an address with the control move under
/// way; its abstract state tells what may hold of the walks that stand there. An instruction
/// transfers an abstract state to those of its successors, where it is joined with what was there.
/// A worklist has the program points whose abstract state has grown, until none is left: the least
/// fixpoint (G. Kildall, A unified approach to global program optimization, 1973).
pub fn check(alloc: Global, m: &Machine, code: &Code) -> Result<Verdict, AllocError>
    requires { IsLegalCode m.now code.now }
    ensures verdict { IfOk result (λ v. Checks m.now code.now v) }
{
    let locations = locations_of(alloc, m, code)?;
    let state = first_state(alloc, &locations, m.units.len())?;
    let point = ProgramPoint {
        address: 0,
        under: None,
    };
    let len = code.words.len();
    let mut table = EntryTable::new(alloc, m.control.delay, len)?;
    if let Some(verdict) = table.put(alloc, m.control.delay, len, Successor { point, state })? {
        return Ok(verdict);
    }
    while let Some(place) = table.worklist.pop() {
        if let Some(verdict) = table.carry(alloc, m, code, place)? {
            return Ok(verdict);
        }
    }
    Ok(Verdict::Safe)
}
