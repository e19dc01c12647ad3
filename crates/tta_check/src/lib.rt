//! Whether any run of code can fault.
#![tactic(auto)]

mod begin;
mod causes;
mod effects;
mod entries;
mod fault_numbers;
mod guard_value;
mod join;
mod jump_target;
mod laws;
mod location;
mod locations;
mod measure;
mod packed;
mod point;
mod slot_causes;
mod solve;
mod start;
mod state;
mod transfer_function;
mod values;
mod verdict;
mod visit;
mod write;

pub use laws::safe_never_faults;
pub use solve::check;
pub use verdict::Verdict;
