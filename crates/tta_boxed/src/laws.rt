//! Laws of circuits that leave operations to modules. A law is a function that does nothing, and whose
//! contract is the law.

ghost use Rattle.tta_boxed.specs.Sized.{BoxedIsClosed, BoxedIsPlain, BoxedNamesDiffer};
ghost use Rattle.tta_boxed.specs.Theorem.{BoxedRuns};

/// As long as the modules show what they owe, the circuit does at every clock what the circuit does that
/// makes all operations itself, from a clock that begins anew on.
pub fn boxed_runs()
    ensures { BoxedRuns }
{}

/// The circuit can be written down as it stands: its parts are parts of names, nothing has no bits, no
/// widths mix, and each wire reads only what stands before it.
pub fn boxed_is_plain()
    ensures { BoxedIsPlain }
{}

/// The circuit reads only signals that it has.
pub fn boxed_is_closed()
    ensures { BoxedIsClosed }
{}

/// No two signals of the circuit have one name.
pub fn boxed_names_differ()
    ensures { BoxedNamesDiffer }
{}
