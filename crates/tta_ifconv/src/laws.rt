//! The law of if-conversion. A law is a function that does nothing, and whose contract is the law.

ghost use Rattle.tta_ifconv.specs.Statement.{Converts};

/// A converted program runs as the program does, and keeps what the program keeps.
pub fn converts()
    ensures { Converts }
{}
