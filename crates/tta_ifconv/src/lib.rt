//! If-conversion: a branch over one copy becomes a copy under the opposite condition, which needs no
//! jump.
#![tactic(auto)]

mod conversion;
mod laws;
mod steps;
mod tables;
mod triangles;

pub use conversion::convert;
pub use laws::converts;
pub use tables::targets_of;
