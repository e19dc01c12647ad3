//! The language of programs in three-address code: what a program is made of, the rules that every
//! program keeps, and what it means step by step.
#![tactic(auto)]

mod args;
mod lay;
mod operand;
mod program;
mod step;

pub use args::Args;
pub use lay::lay_lines;
pub use operand::{Rel, Src};
pub use program::{DataLine, Proc, Program};
pub use step::Step;
