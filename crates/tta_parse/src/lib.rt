//! What the readers of line-by-line texts share: the lines of a text as words, names that were
//! declared, and why a line could not be taken.
#![tactic(auto)]

mod line_error;
mod lines;
mod names;
mod word;
mod wording;

pub use line_error::LineError;
pub use lines::Lines;
pub use names::Names;
pub use word::Word;
