//! What whoever goes over the circuit of a machine asks of its units: where they offer an operation, what
//! they offer, and how long their results take.
#![tactic(auto)]

mod offers;
mod units;

pub use offers::{OpAt, all_ops};
pub use units::{longest, op_at, ops_at};
