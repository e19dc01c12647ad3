//! The lines that commands print, each put in one call that takes no memory. The kit's `itoa` writes
//! the numbers and its `arrayvec` holds the line.
#![tactic(auto)]

mod cores;
mod line;
mod memory;
mod put;
mod reply;
mod report;
mod text;

pub use cores::put_core;
pub use line::Line;
pub use put::{put_line, put_lines};
pub use reply::{Reply, put_due, put_reply};
pub use report::put_report;
