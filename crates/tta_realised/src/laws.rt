//! Laws of the circuits of code that agrees with a program. A law is a function that does nothing, and
//! whose contract is the law.

ghost use Rattle.tta_realised.specs.Faultless.{BuiltTellsNone, CircuitTellsNone};
ghost use Rattle.tta_realised.specs.Laws.{BuiltDoes, CircuitDoes, ImageDoes};

/// The circuit of code that agrees with a program does what the program does.
pub fn circuit_does()
    ensures { CircuitDoes }
{}

/// So does the circuit whose memory of code has the bits of an image of that code.
pub fn image_does()
    ensures { ImageDoes }
{}

/// The circuit of an image that `build` wrote for a program does what the program does.
pub fn built_does()
    ensures { BuiltDoes }
{}

/// The circuit of code that agrees with a program and that would tell faults tells none.
pub fn circuit_tells_none()
    ensures { CircuitTellsNone }
{}

/// Nor does that of an image that `build` wrote for a program.
pub fn built_tells_none()
    ensures { BuiltTellsNone }
{}
