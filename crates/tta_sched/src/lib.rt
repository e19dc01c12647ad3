//! Placement of the items of a block in cycles: each where it fits first, or one item in a cycle; and
//! how long placed blocks are at most.
#![tactic(auto)]

mod alone;
mod first;
mod laws;
mod serial;

pub use first::{Placer, place_block};
pub use laws::{first_fit_has_room, fits_after};
pub use serial::place_serial;
