//! Laws of placed lists. A law is a function that does nothing, and whose contract is the law.

ghost use Rattle.tta_sched_laws.specs.Laws.{BlocksOverlap, BuiltAgrees};

/// A block of code does in its cycles what its list does: it finds what the list finds, takes its
/// length without a fault and ends with what the list leaves, or it waits where the list waits.
pub fn blocks_overlap()
    ensures { BlocksOverlap }
{}

/// Code that is linked from the placed lists of a program agrees with the program.
pub fn built_agrees()
    ensures { BuiltAgrees }
{}
