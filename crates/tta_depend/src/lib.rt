//! The bounds between the items of a block: from which cycle on an item can stand, after the items
//! that are placed, and how long the block is.
#![tactic(auto)]

mod bounds;
mod places;
mod rows;
mod touches;

pub use bounds::Bounds;
pub use touches::lasts;
