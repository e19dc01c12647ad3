//! The table of cycles: what the items of a block take while they are placed, so that a few masks
//! and counts say whether one item more fits.
#![tactic(auto)]

mod adding;
mod laws;
mod leaving;
mod row;
mod table;

pub use laws::bounds_keep_apart;
pub use table::Table;
