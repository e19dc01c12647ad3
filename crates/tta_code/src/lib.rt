//! Instructions of a machine, which of them are legal, what they mean cycle by cycle, and when code
//! agrees with a program.
#![tactic(auto)]

mod code;
mod laws;
mod legality;
mod room;
mod whole;

pub use code::{Code, Instruction, Long, Move, count_words};
pub use laws::tells_legal;
pub use legality::{Illegal, legal};
pub use whole::{Datum, Whole, lay};
