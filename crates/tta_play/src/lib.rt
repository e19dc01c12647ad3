//! A page that plays a run: one file that shows each state of some of its cycles, a step at a time.
#![tactic(auto)]

mod control;
mod cycling;
mod laws;
mod listing;
mod memory;
mod names;
mod places;
mod playing;
mod ports;
mod skipping;
mod state;
mod words;

pub use laws::pages_are_small;
pub use playing::{ProgramTexts, Span, play, play_after};
