//! Where the cycles of a run of compiled code go, by the blocks of its program.
#![tactic(auto)]

mod blocks;
mod costly;
mod profiling;
mod report;

pub use blocks::Blocks;
pub use costly::Spent;
pub use profiling::{Compiled, profile_blocks};
