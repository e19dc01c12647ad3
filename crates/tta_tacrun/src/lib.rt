//! The run of a three-address program by its sequential meaning, one step a call.
#![tactic(auto)]

mod answer;
mod basis;
mod calls;
mod carry;
mod cells;
mod code;
mod entry;
mod flat;
mod flat_proc;
mod pass;
mod phase;
mod relations;
mod seq;
mod silent;
mod words;

pub use answer::SeqStep;
pub use seq::Seq;
