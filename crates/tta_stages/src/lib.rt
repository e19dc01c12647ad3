//! What a program becomes on the way to code for a machine, stage by stage: its blocks, the intervals
//! and homes of its variables, its register code, the lists of each block from the selected one to the
//! one that is placed, and the code. All of it is one value, which the compiler makes: `build` writes its
//! code.
#![tactic(auto)]

mod lowered;
mod stages;
mod starts;
mod text;

pub use lowered::Lowered;
pub use stages::{Stages, stages_of};
pub use starts::block_starts;
pub use text::{push_block, push_part_at, push_range_at, tell_stages};
