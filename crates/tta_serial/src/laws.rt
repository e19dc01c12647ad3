//! Laws of serial code. A law is a function that does nothing, and whose contract is the law.

ghost use Rattle.tta_serial.specs.Laws.{SerialAgrees, SerialDirectAgrees};

/// Code whose blocks are placed one item in a cycle, and linked, does what the program does.
pub fn serial_agrees()
    ensures { SerialAgrees }
{}

/// So does that of a direct pair, whose one list only outputs constants.
pub fn serial_direct_agrees()
    ensures { SerialDirectAgrees }
{}
