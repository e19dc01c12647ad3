//! What a step reads and assigns, and what follows it.

ghost use Rattle.std.specs.Prelude.{◌≡◌};
ghost use Rattle.tta_flow.specs.Steps.{reads, assigned, assigns, target, falls_through, cuts};

use tta_program::{Src, Step};

/// Whether a step assigns a variable.
pub fn is_assigned(step: &Step, x: u32) -> bool
    ensures { result ≡ assigns step.now x }
{
    match assigned_by(step) {
        Some(d) => d == x,
        None => false,
    }
}

/// The variable that a step assigns, if it assigns one.
pub fn assigned_by(step: &Step) -> Option<u32>
    ensures { result ≡ assigned step.now }
{
    match step {
        Step::Copy { d, .. } => Some(*d),
        Step::Apply { d, .. } => Some(*d),
        Step::Load { d, .. } => Some(*d),
        Step::Take { d } => Some(*d),
        Step::When { d, .. } => Some(*d),
        Step::Invoke { d, .. } => *d,
        _ => None,
    }
}

/// The step that a branch names.
pub fn target_of(step: &Step) -> Option<u32>
    ensures { result ≡ target step.now }
{
    match step {
        Step::If { to, .. } => Some(*to),
        Step::Goto { to } => Some(*to),
        _ => None,
    }
}

/// Whether the step in the next place can follow.
pub fn falls_on(step: &Step) -> bool
    ensures { result ≡ falls_through step.now }
{
    match step {
        Step::Goto { .. } | Step::Return { .. } | Step::Halt | Step::End => false,
        _ => true,
    }
}

/// Whether a block ends with this step.
pub fn ends_block(step: &Step) -> bool
    ensures { result ≡ cuts step.now }
{
    match step {
        Step::If { .. } | Step::Goto { .. } | Step::Invoke { .. } => true,
        Step::Return { .. } | Step::Halt | Step::End => true,
        _ => false,
    }
}
