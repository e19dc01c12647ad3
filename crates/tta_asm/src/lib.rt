//! Parallel assembly: reading it into code with its data. The one canonical text of both stands in
//! tta_disasm, and is handed on from here.
//!
//! A text is a list of labels and instructions, and before them of the data that the code begins
//! with. An instruction has one slot for each bus, a move or nothing, and at most one long immediate
//! after them.
#![tactic(auto)]

mod assembling;
mod draft;
mod forms;
mod init;
mod instruction;
mod labels;
mod laws;
mod naming;
mod parts;
mod pieces;
mod places;
mod refusal;
mod resolving;
mod syntax;
mod table;
mod target;

pub use assembling::assemble;
pub use laws::{assembles_legal, reads_back};
pub use refusal::{AsmError, AsmRefusal};
pub use tta_disasm::disassemble;
