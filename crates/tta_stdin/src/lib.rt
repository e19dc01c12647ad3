//! Lines that come one by one: those of the host's standard input, and those of a test. Each counts
//! its faults, so that a caller's refusal can be traced to one.
#![tactic(auto)]

mod error;
mod line_port;
mod mem_lines;
mod one_line;
mod real_lines;

pub use error::LineError;
pub use line_port::Lines;
pub use mem_lines::MemLines;
pub use real_lines::RealLines;
