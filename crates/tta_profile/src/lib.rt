//! Where the cycles of a run go: how often each instruction is carried out, and how often the guard
//! of each move stops it.
#![tactic(auto)]

mod counting;
mod counts;
mod feed;
mod following;
mod hot;
mod outside;
mod profiling;
mod report;
mod stopped;
mod sums;
mod uses;

pub use counting::Basis;
pub use counts::Counts;
pub use feed::went_on;
pub use hot::Hot;
pub use profiling::{count_run, profile};
pub use report::words_of;
pub use sums::{Test, cycles_sum};
pub use uses::{Profiled, push_share, push_uses};
