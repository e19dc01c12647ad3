//! The words that the places of a machine keep, followed cycle by cycle beside a run, and those that the moves of
//! the next instruction carry.
#![tactic(auto)]

mod carrying;
mod row;
mod writing;

pub use carrying::{coming, is_active, push_carried, slots_of, word_of};
pub use row::Row;
pub use writing::{width_of, write_made};
