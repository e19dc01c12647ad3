//! The outside world of the toolset: named files that are read and written whole, and a sink that
//! takes output. Each counts its faults, so that a caller's refusal can be traced to one.
#![tactic(auto)]

mod error;
mod fault;
mod file_port;
mod mem_files;
mod mem_sink;
mod real_files;
mod real_sink;
mod sink_port;
mod transfer;

pub use error::{Failed, ReadError, WriteError};
pub use file_port::Files;
pub use mem_files::MemFiles;
pub use mem_sink::MemSink;
pub use real_files::RealFiles;
pub use real_sink::RealSink;
pub use sink_port::Sink;
