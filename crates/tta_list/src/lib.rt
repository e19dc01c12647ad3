//! What most crates of the toolset stand on: lists and names that contracts see as plain lists, the
//! entry at a place of a list, powers of two, the word for a step that is taken n times, runs from
//! block to block, what a run is fed, words that are laid over a memory, and what is said of lists
//! and of tests.
#![tactic(auto)]

mod items;
mod name;
mod places;
mod powers;
mod truths;

pub use items::Items;
pub use name::Name;
pub use places::entry_at;
pub use powers::power_of_two;
pub use truths::either;
