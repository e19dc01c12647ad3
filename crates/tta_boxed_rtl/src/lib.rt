//! The circuit of a machine with its code that leaves long operations to modules beside it, as a module
//! of Verilog.
#![tactic(auto)]

mod at;
mod comings;
mod dividers;
mod froms;
mod functions;
mod left;
mod modules;
mod picks;
mod registers;
mod whole;

pub use left::Left;
pub use whole::{Wanted, write_boxed_rtl};
