//! The code of placed blocks: the blocks of a program one after another, where an address is the
//! word at which its block begins.
#![tactic(auto)]

mod items;
mod row;

pub use row::{LinkError, link};
