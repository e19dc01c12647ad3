//! A sample's program halts within its bound of steps.
#![tactic(auto)]

mod laws;

pub use laws::samples_halt;
