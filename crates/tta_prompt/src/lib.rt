//! The debugger at a prompt: each line that comes is a command, and is answered before the next line
//! is read.
#![tactic(auto)]

mod answer;
mod error;
mod help;
mod law;
mod own;
mod prompt;
mod registers;
mod text;

pub use error::PromptError;
pub use law::as_in_scripts;
pub use prompt::run_prompt;
