//! The law of samples. A law is a function that does nothing, and whose contract is the law.

ghost use Rattle.tta_sample_laws.specs.Statement.{SamplesHalt};

/// With units whose `sub` and `eq` are the standard ones, the program of a sample of so many lines
/// halts within 32 steps for each line and 50 more, whatever its memory holds and its input is.
pub fn samples_halt()
    ensures { SamplesHalt }
{}
