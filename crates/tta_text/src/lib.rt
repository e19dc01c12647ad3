//! The tokens of the toolset's texts: machines, programs, assembly and scripts.
//!
//! A text is bytes. Its lines are counted from 1 and end at a newline each; every line ends with a
//! token of its own, also a last line without newline. Blanks and comments are no tokens, and at
//! each place the longest token that any kind allows is taken. Nothing here takes memory.
#![tactic(auto)]

mod bytes;
mod law;
mod lexeme;
mod numbers;
mod pieces;
mod scanning;

pub use law::{digits_count_by_place, tokens_cover};
pub use lexeme::{Kind, Token};
pub use numbers::{negative, number};
pub use scanning::Scanner;
