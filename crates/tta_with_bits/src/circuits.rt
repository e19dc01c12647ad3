//! The commands that put circuits of the operations of `Bits`: `circuit`, and `rtl`, in whose text their
//! functions stand.

use std::alloc::Global;
use tta_bits::Bits;
use tta_inspect::show;
use tta_load::Status;
use tta_ops::UnitSet;
use tta_own_circuits::{KeptText, is_circuit, is_rtl, put_with_functions, show_function};
use tta_ports::{Files, Sink};
use tta_stdin::Lines;

/// Whether the words ask for such a command.
pub fn is_asked(words: &Vec<String>) -> bool {
    is_circuit(words) || is_rtl(words)
}

/// Carries out the words as `show` does, and puts the text with the functions of the operations whose
/// circuits the unit hands in.
fn show_with_functions<F: Files, L: Lines, S: Sink>(
    alloc: Global,
    words: &Vec<String>,
    units: &UnitSet,
    files: &mut F,
    lines: &mut L,
    sink: &mut S,
) -> Status {
    let mut kept = KeptText::new(alloc);
    let shown = show(alloc, words, units, files, lines, &mut kept);
    put_with_functions(alloc, &Bits, shown, &kept, sink)
}

/// Carries out the words of such a command.
pub fn put<F: Files, L: Lines, S: Sink>(
    alloc: Global,
    words: &Vec<String>,
    units: &UnitSet,
    files: &mut F,
    lines: &mut L,
    sink: &mut S,
) -> Status {
    if is_circuit(words) {
        return show_function(alloc, words, &Bits, sink);
    }
    show_with_functions(alloc, words, units, files, lines, sink)
}
