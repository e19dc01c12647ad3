//! The commands of the toolset, over any operation units, files and output.
#![tactic(auto)]

mod asm;
mod build;
mod checking;
mod command;
mod comparing;
mod debugging;
mod dis;
mod exec;
mod ifconv;
mod names;
mod numbers;
mod program_run;
mod report;
mod request;
mod running;
mod sampling;

pub use command::tool;
pub use tta_load::Status;
