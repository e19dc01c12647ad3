//! Laws of texts of machines. A law is a function that does nothing, and whose contract is the law.

ghost use Rattle.tta_told.specs.Files.{OneFile};
ghost use Rattle.tta_told.specs.Laws.{OneBoxedText, OneText, OneTrapText};
ghost use Rattle.tta_told.specs.Pins.{PrintedPins};
ghost use Rattle.tta_told.specs.Printed.{PrintedBoxedText, PrintedText};

/// The text of a machine with its code is that of at most one circuit.
pub fn one_text()
    ensures { OneText }
{}

/// The text of a circuit that tells the first fault is that of at most one circuit.
pub fn one_trap_text()
    ensures { OneTrapText }
{}

/// The text of a circuit that leaves operations to modules is that of at most one circuit.
pub fn one_boxed_text()
    ensures { OneBoxedText }
{}

/// What `rtl` prints of a circuit, with faults or without, is such a text.
pub fn printed_text()
    ensures { PrintedText }
{}

/// What it prints of one that leaves operations to modules is such a text.
pub fn printed_boxed_text()
    ensures { PrintedBoxedText }
{}

/// The ports of a printed module show the pins of its circuit, of which the laws of its runs speak.
pub fn printed_pins()
    ensures { PrintedPins }
{}

/// Of one machine, the file of the code's words, which `rtl` writes beside a text, is that of one code.
pub fn one_file()
    ensures { OneFile }
{}
