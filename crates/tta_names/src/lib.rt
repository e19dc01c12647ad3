//! What the signals of a machine are called, in the text of its circuit and wherever its signals are told.
#![tactic(auto)]

mod boxes;
mod names;
mod watches;

pub use boxes::{push_from_name, push_made_name};
pub use names::{push_immediate, push_of_bus, push_of_op, push_of_unit, push_register};
pub use watches::{Place, Watch, push_watch};
