//! A law of the functions in a text. A law is a function that does nothing, and whose contract is the law.

ghost use Rattle.tta_own_circuits.specs.Laws.{FunctionsStand};

/// Where `rtl` includes the file of an operation whose circuit its unit hands in, the function of that
/// circuit stands; each other line stays.
pub fn functions_stand()
    ensures { FunctionsStand }
{}
