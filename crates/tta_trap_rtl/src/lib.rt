//! The circuit of a machine with its code that tells the first fault, as a module of Verilog.
#![tactic(auto)]

mod becoming;
mod fault;
mod findings;
mod lacks;
mod late;
mod names;
mod numbers;
mod pins;
mod reads;
mod watching;
mod whole;

pub use pins::{push_before, push_shown};
pub use watching::push_watches;
pub use whole::{push_all_wires, write_trap};
