//! Laws of instructions. A law is a function that does nothing, and whose contract is the law.

ghost use Rattle.tta_code.specs.Illegal.{TellsLegal};

/// An instruction breaks no rule, as its buses are walked upwards, exactly where it is legal.
pub fn tells_legal()
    ensures { TellsLegal }
{}
