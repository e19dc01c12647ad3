//! Laws of circuits that tell the first fault. A law is a function that does nothing, and whose contract
//! is the law.

ghost use Rattle.tta_trap.specs.Tells.{KnowsOn, TellsFaults};
ghost use Rattle.tta_trap.specs.Theorem.{TrapHoldsCode, TrapRuns, TrapStandsStill, TrapStays};
ghost use Rattle.tta_trap.specs.Images.{TrapFilledRuns, TrapFilledShows, TrapImageRuns};
ghost use Rattle.tta_trap.specs.Sized.{TrapIsClosed, TrapIsPlain, TrapNamesDiffer};
ghost use Rattle.tta_trap.specs.Pins.{TrapPinsServe};
ghost use Rattle.tta_trap.specs.Within.{TrapWordsStay};

/// The circuit tells the fault of the next cycle by its number, and none where that cycle meets none.
pub fn tells_faults()
    ensures { TellsFaults }
{}

/// A clock that carries an instruction out leaves it knowing which places were written, which result
/// ports have shown a result, and whether the address is past all that it can have.
pub fn knows_on()
    ensures { KnowsOn }
{}

/// After every number of clocks the circuit stands for the state of the machine after as many cycles as
/// clocks carried an instruction out, whatever the code is; and it tells the fault that the next cycle
/// meets.
pub fn trap_runs()
    ensures { TrapRuns }
{}

/// A fault that it tells is there at every later clock, and no further cycle is made.
pub fn trap_stays()
    ensures { TrapStays }
{}

/// The circuit stands still only where the machine has halted, the next cycle meets a fault, a word that
/// is asked for is not offered, or one that is to be put out is not taken. Where it runs, tells no fault,
/// and asks for a word and none is left, the machine waits in its next cycle.
pub fn trap_stands_still()
    ensures { TrapStandsStill }
{}

/// The circuit can be written down as it stands: its parts are parts of names, nothing has no bits, no
/// widths mix, and each wire reads only what stands before it.
pub fn trap_is_plain()
    ensures { TrapIsPlain }
{}

/// The circuit reads only signals that it has.
pub fn trap_is_closed()
    ensures { TrapIsClosed }
{}

/// No two signals of the circuit have one name.
pub fn trap_names_differ()
    ensures { TrapNamesDiffer }
{}

/// A word is put out exactly where the pin says that there is one and it would be taken, and one is
/// taken exactly where the pin says so and it is offered.
pub fn trap_pins_serve()
    ensures { TrapPinsServe }
{}

/// The words of all its signals and memories stay within their widths.
pub fn trap_words_stay()
    ensures { TrapWordsStay }
{}

/// After any clocks from the power on, the circuit holds the words of the code and has its spaces, so
/// clocks that begin anew can come at any time.
pub fn trap_holds_code()
    ensures { TrapHoldsCode }
{}

/// Zeros past the code change nothing, and no fault that it tells.
pub fn trap_filled_runs()
    ensures { TrapFilledRuns }
{}

/// So the circuit whose memory of code is filled up with zeros shows the run of the machine, and tells the
/// fault that the next cycle meets.
pub fn trap_filled_shows()
    ensures { TrapFilledShows }
{}

/// The circuit whose memory of code has the bits of an image runs as the machine does, and tells the fault
/// that the next cycle meets.
pub fn trap_image_runs()
    ensures { TrapImageRuns }
{}
