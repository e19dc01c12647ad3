//! Where the code of a program comes from: the lines that each block of code stands for, and the variables
//! that are live in it, each with its home.
#![tactic(auto)]

mod blocks;
mod lines;
mod origins;
mod slots;
mod variables;
mod words;

pub use origins::tell_origins;
