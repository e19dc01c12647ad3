//! The text of a divider as a module, and its writer.
#![tactic(auto)]

mod digits;
mod divider;
mod names;
mod registers;
mod stages;
mod words;

pub use divider::write_divider;
