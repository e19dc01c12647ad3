//! What circuits are made of, counted: bits of registers, choices between two bits, and the longest path.
#![tactic(auto)]

mod cost;

pub use cost::{CHOICE, Cost, EQUAL, GATE, PRODUCT, QUOTIENT, READ, SHIFT, SUM};
