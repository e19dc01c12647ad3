//! A machine with its code as a circuit that leaves long operations to modules beside it.
#![tactic(auto)]

mod laws;

pub use laws::{boxed_is_closed, boxed_is_plain, boxed_names_differ, boxed_runs};
