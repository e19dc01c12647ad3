//! The text of the circuit of a machine with code, with lines above it that tell what it is made of.
#![tactic(auto)]

mod features;
mod headed;
mod lines;

pub use features::Features;
pub use headed::{Source, write_headed_file, write_headed_rtl};
