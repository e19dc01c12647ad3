//! Laws of the file of the code's words, and of functions. A law is a function that does nothing, and whose
//! contract is the law.

ghost use Rattle.tta_rtl.specs.Laws.{FileIsFull, FileReadsAlike};
ghost use Rattle.tta_rtl.specs.Operations.{FunctionsAreCircuits};

/// At each address the file has the word that the circuit reads there, also past the end of the code.
pub fn file_reads_alike()
    ensures { FileReadsAlike }
{}

/// The file has a word for each address of the machine and no more.
pub fn file_is_full()
    ensures { FileIsFull }
{}

/// The function of each standard operation is the text of a circuit that makes it.
pub fn functions_are_circuits()
    ensures { FunctionsAreCircuits }
{}
