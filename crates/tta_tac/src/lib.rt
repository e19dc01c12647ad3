//! The reader of program texts: their grammar, and the first refusal of a text that is no program's.
//! The program itself stands in `tta_program`, the text of a sample in `tta_sample`; both are handed on
//! here.
#![tactic(auto)]

mod assign;
mod begun;
mod calls;
mod cycles;
mod declarations;
mod draft;
mod finish;
mod first_pass;
mod forms;
mod initial;
mod laws;
mod link;
mod operations;
mod order;
mod params;
mod pieces;
mod read;
mod refusal;
mod steps;
mod syntax;
mod variables;

pub use laws::texts_are_programs;
pub use read::read_program;
pub use refusal::{Refusal, TacError};
pub use tta_program::{Args, DataLine, Proc, Program, Rel, Src, Step, lay_lines};
pub use tta_sample::sample;
