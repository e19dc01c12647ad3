//! What code does whose blocks carry one item in a cycle: the law that joins serial placement, the
//! linker and the agreement of code with its program. It has no body but those of its laws.
#![tactic(auto)]

mod laws;

pub use laws::{serial_agrees, serial_direct_agrees};
