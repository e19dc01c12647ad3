//! The text of what joins cores: the queue before each, and the module that joins them.
#![tactic(auto)]

mod joining;
mod part;
mod queue;
mod registers;
mod source;
mod top;
mod wiring;

pub use part::Ends;
pub use queue::{push_numbered, push_queues};
pub use top::push_top;
