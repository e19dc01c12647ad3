//! The reader of input files, whose words fill the data space before a run, and of streams, whose
//! words a run takes one by one. The kit's `hex` reads the digits.
//!
//! A file is lines, and each line is one word: exactly eight hexadecimal digits of either case, the
//! most significant first. A newline ends a line, a carriage return directly before it is dropped,
//! and the last newline may be missing. An empty file has no words.
#![tactic(auto)]

mod error;
mod law;
mod lines;
mod read;

pub use error::InputError;
pub use law::lines_are_words;
pub use read::{read_input, read_stream};
