//! What a machine's circuit is made of, counted: bits, choices and the longest path, part by part.
#![tactic(auto)]

mod buses;
mod control;
mod fields;
mod lines;
mod loads;
mod offers;
mod on;
mod operations;
mod parts;
mod reach;
mod registers;
mod results;
mod rows;
mod spaces;
mod starts;
mod text;
mod wires;

pub use text::{depths_are, tell_code, tell_machine};
