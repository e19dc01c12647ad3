//! The printed text of a program is read back to the program. There are laws here and no code.
#![tactic(auto)]

mod laws;

pub use laws::{printed_is_read, texts_are_readable};
