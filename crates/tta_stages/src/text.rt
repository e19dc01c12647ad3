//! What is told of the stages of a program, as text.

mod items;
mod lists;
mod named;
mod placed;
mod program;
mod register;
mod steps;
mod told;
mod variables;
mod words;

pub use register::{push_part_at, push_range_at};
pub use told::tell_stages;
pub use words::push_block;
