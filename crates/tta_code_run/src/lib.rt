//! The run of code, which the loops of tta_run make, loaded with its data.
#![tactic(auto)]

mod code_run;

pub use code_run::{CodeRun, load_code};
