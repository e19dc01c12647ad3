//! How blocks end.

ghost use Rattle.std.specs.Prelude.{◌≡◌, ◌<◌, true, length, slice_index};
ghost use Rattle.tta_program.specs.declared.step.Step.{Step};
ghost use Rattle.tta_lower.specs.Tables.{fits, number_in};
ghost use Rattle.tta_lower.specs.Plan.{homes_in};
ghost use Rattle.tta_lower.specs.Layout.{exit_for};

use crate::numbers::{Numbers, number};
use crate::plan::{Plan, back_slot, source_of};
use tta_lir::Exit;
use tta_program::Step;

/// How a block with a last step ends.
pub fn exit_of(plan: &Plan<'_>, numbers: &Numbers, owner: u32, step: &Step) -> Exit
    requires there { owner < length plan.now.p.now.procs }
    requires fits { fits plan.now.p.now owner step.now ≡ true }
    requires entries { length numbers.now.entries.items ≡ length plan.now.p.now.procs }
    ensures { result ≡ exit_for plan.now.p.now (homes_in plan.now)
        (number_in numbers.now.rows.items) (slice_index numbers.now.entries.items) owner step.now }
{
    match step {
        Step::If { rel, a, b, to } => Exit::If {
            rel: *rel,
            a: source_of(plan, owner, *a),
            b: source_of(plan, owner, *b),
            to: number(numbers, owner, *to),
        },
        Step::Goto { to } => Exit::Goto {
            to: number(numbers, owner, *to),
        },
        Step::Invoke { callee, .. } => Exit::Invoke {
            to: numbers.entries[*callee as usize],
        },
        Step::Return { .. } | Step::End => back_of(plan, numbers, owner),
        Step::Halt => Exit::Halt,
        _ => Exit::Next,
    }
}

/// How a block ends whose last step returns.
fn back_of(plan: &Plan<'_>, numbers: &Numbers, owner: u32) -> Exit
    requires there { owner < length plan.now.p.now.procs }
    ensures { result ≡ exit_for plan.now.p.now (homes_in plan.now)
        (number_in numbers.now.rows.items) (slice_index numbers.now.entries.items) owner Step.End }
{
    let p = plan.p;
    if owner == p.main {
        Exit::Halt
    } else {
        Exit::Back {
            slot: back_slot(plan, owner),
        }
    }
}
