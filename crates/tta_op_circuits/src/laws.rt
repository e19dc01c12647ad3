//! Laws of the circuits of operations. A law is a function that does nothing, and whose contract is the law.

ghost use Rattle.tta_op_circuits.specs.Laws.{AreMade, DividesInSteps, MakesAnywhere, SettlesTo};
ghost use Rattle.tta_op_circuits.specs.Laws.{StageDivides};

/// Thirty-two digits of a long division are the quotient and the remainder, wherever it is cut into
/// stages, and whatever the divisor.
pub fn divides_in_steps()
    ensures { DividesInSteps }
{}

/// The wires of a stage, between any two digits, make those digits.
pub fn stage_divides<N, M>()
    ensures { StageDivides N M }
{}

/// The circuits of the standard units make their operations.
pub fn are_made()
    ensures { AreMade }
{}

/// A circuit of an operation makes it under any names.
pub fn makes_anywhere<N, M>()
    ensures { MakesAnywhere N M }
{}

/// The wires of a circuit of an operation settle, and then it has made the operation.
pub fn settles_to()
    ensures { SettlesTo }
{}
