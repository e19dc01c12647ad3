//! Whether the cycles of a run go on.

ghost use Rattle.std.specs.Prelude.{◌≡◌};
ghost use Rattle.tta_profile.specs.Feed.{went_on};

use tta_sim::CycleStep;

/// Whether a cycle was carried out, and if so whether it took a word of the input.
pub fn went_on(step: CycleStep) -> Option<bool>
    ensures { result ≡ went_on step }
{
    match step {
        CycleStep::Ran { took, .. } => Some(took),
        CycleStep::Halted => None,
        CycleStep::Waiting => None,
        CycleStep::Fault(_) => None,
    }
}
