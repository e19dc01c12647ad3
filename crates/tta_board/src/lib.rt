//! Machines as circuits that are joined by queues as circuits: what they do under one clock.
#![tactic(auto)]

mod laws;

pub use laws::{board_agrees, board_begins, board_clock, board_runs, board_settles};
