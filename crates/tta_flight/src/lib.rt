//! Results on their way to the result ports of units, in one region of rings.
#![tactic(auto)]

mod marked;
mod region;
mod ring;
mod turning;

pub use region::Region;
