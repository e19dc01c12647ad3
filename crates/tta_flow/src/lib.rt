//! Control flow inside the procedures of a program: basic blocks, and which variables are live.
#![tactic(auto)]

mod bits;
mod edges;
mod firsts;
mod flow;
mod gather;
mod live;
mod order;
mod reach;
mod reads;
mod rows;
mod runs;
mod search;
mod settle;
mod steps;
mod table;

pub use bits::BitRow;
pub use flow::{Block, Flow, flows_keep_laws};
pub use live::Live;
pub use steps::{assigned_by, ends_block, falls_on, is_assigned, target_of};
pub use table::PlaceLists;
