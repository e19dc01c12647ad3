//! The homes of variables: home registers by linear scan, and slots.
#![tactic(auto)]

mod body;
mod home;
mod homes;
mod interval;
mod intervals;
mod kept;
mod met;
mod scan;
mod steps;
mod taken;
mod turns;
mod walks;

pub use home::Home;
pub use homes::{Homes, assign, in_turn, scans_allot, scans_keep_apart, turns_allot};
pub use interval::Interval;
pub use intervals::Intervals;
