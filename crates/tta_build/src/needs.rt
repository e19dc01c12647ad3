//! Which steps of a program need an operation that no usable unit offers.

ghost use Rattle.std.specs.Prelude.{◌≡◌, true, false, IfNone, IfSome, slice_index};
ghost use Rattle.tta_ops.specs.Set.{stated};
ghost use Rattle.tta_arch.specs.Effects.{first_some};
ghost use Rattle.tta_compiler_laws.specs.Needs.{need_of, is_served, are_offered};
ghost use Rattle.tta_compiler_laws.specs.Needs.{first_failing, unoffered_in, first_unoffered};

use tta_arch::{Machine, Op};
use tta_connect::{Choice, offered};
use tta_ops::UnitSet;
use tta_program::{Proc, Program, Step};
use tta_select::test_op;

/// The operation that a step needs, if it needs one.
fn need_of(units: &UnitSet, step: &Step) -> Option<Op>
    ensures { result ≡ need_of (stated unit_meaning units.now) step.now }
{
    match step {
        Step::Apply { op, .. } => Some(Op::Set(*op)),
        Step::Load { .. } => Some(Op::Ldw),
        Step::Take { .. } => Some(Op::Take),
        Step::Store { .. } => Some(Op::Stw),
        Step::Put { .. } => Some(Op::Out),
        Step::If { rel, .. } => Some(test_op(units, *rel)),
        Step::When { rel, .. } => Some(test_op(units, *rel)),
        _ => None,
    }
}

/// Whether a usable unit offers what a step needs.
fn is_served(m: &Machine, c: &Choice, units: &UnitSet, step: &Step) -> bool
    ensures { result ≡ is_served (stated unit_meaning units.now) m.now c.now step.now }
{
    match need_of(units, step) {
        Some(op) => offered(m, c.usable, op).is_some(),
        None => true,
    }
}

/// The number of the first step whose need no usable unit offers.
#[tactic(auto, using(crate::proofs::Served::failing_from, crate::proofs::Served::failing_none))]
fn first_unserved(m: &Machine, c: &Choice, units: &UnitSet, steps: &[Step]) -> Option<usize>
    ensures { let U = stated unit_meaning units.now in
        result ≡ first_failing (is_served U m.now c.now) 0 steps.now }
{
    for (k, step) in steps.iter().enumerate() {
        if !is_served(m, c, units, step) {
            return Some(k);
        }
    }
    None
}

/// The line of a step, 0 past the last.
fn line_of(lines: &[u32], step: usize) -> u32
    ensures { result ≡ slice_index lines.now step }
{
    match lines.get(step) {
        None => 0,
        Some(line) => *line,
    }
}

/// The line of the first step of a procedure whose need no usable unit offers.
fn unoffered_in(m: &Machine, c: &Choice, units: &UnitSet, q: &Proc) -> Option<u32>
    ensures { result ≡ unoffered_in (stated unit_meaning units.now) m.now c.now q.now }
{
    match first_unserved(m, c, units, q.steps.as_slice()) {
        Some(step) => Some(line_of(q.lines.as_slice(), step)),
        None => None,
    }
}

/// The line of the first of some procedures' steps whose need no usable unit offers.
#[tactic(auto, using(crate::proofs::Served::some_from, crate::proofs::Served::some_none))]
fn unoffered_among(m: &Machine, c: &Choice, units: &UnitSet, procs: &[Proc]) -> Option<u32>
    ensures { let U = stated unit_meaning units.now in
        result ≡ first_some (unoffered_in U m.now c.now) procs.now }
{
    for q in procs {
        let line = unoffered_in(m, c, units, q);
        if line.is_some() {
            return line;
        }
    }
    None
}

/// The line of the first step of a program that needs an operation which no usable unit offers,
/// procedures and steps in the order of the text, those among them to which no path comes. It is
/// None exactly where usable units offer all that the program needs. It takes no memory.
#[tactic(auto, using(crate::proofs::Served::none_offered, crate::proofs::Served::some_missing))]
pub fn unoffered(m: &Machine, c: &Choice, p: &Program, units: &UnitSet) -> Option<u32>
    ensures first { let U = stated unit_meaning units.now in
        result ≡ first_unoffered U m.now c.now p.now }
    ensures offered { let U = stated unit_meaning units.now in
        IfNone result (are_offered U m.now c.now p.now ≡ true) }
    ensures missing { let U = stated unit_meaning units.now in
        IfSome result (λ line. are_offered U m.now c.now p.now ≡ false) }
{
    unoffered_among(m, c, units, p.procs.as_slice())
}
