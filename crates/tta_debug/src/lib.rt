//! The debugger of a machine's code: a session that carries out commands, each a line of words, and
//! puts their replies. Nothing here takes memory.
#![tactic(auto)]

mod asked;
mod basis;
mod command;
mod flight;
mod law;
mod query;
mod run;
mod say;
mod script;
mod session;
mod stops;
mod told;
mod words;

pub use basis::Basis;
pub use law::cycles_are_of_the_run;
pub use script::{run_script, take_line};
pub use session::Session;
pub use told::{CommandError, NO_COMMAND, NOT_THERE, STOPS_FULL, Told};
pub use words::next_word;
