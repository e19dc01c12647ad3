//! The printed text of a program.
#![tactic(auto)]

mod print;
mod steps;
mod words;

pub use print::print_program;
pub use steps::push_step;
