//! Laws of cores. A law is a function that does nothing, and whose contract is the law.

ghost use Rattle.tta_kahn.specs.Laws.{CoresAgree, CoresCompare, PairsNeverFault, ProgramsCompare};

/// In whatever order cores take their cycles, what one has output begins what it outputs in another
/// order, or the other way round; and at rest it has output all that it can.
pub fn cores_compare()
    ensures { CoresCompare }
{}

/// The same of programs that are joined by queues.
pub fn programs_compare()
    ensures { ProgramsCompare }
{}

/// The same of cores in one order and of the programs that they agree with in another.
pub fn cores_agree()
    ensures { CoresAgree }
{}

/// Cores that agree with programs meet no fault, whatever words come from outside and whichever core
/// feeds which.
pub fn pairs_never_fault()
    ensures { PairsNeverFault }
{}
