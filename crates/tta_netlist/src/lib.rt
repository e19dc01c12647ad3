//! The text of cores that are joined by queues, as modules of Verilog: the module of each core, and what
//! joins them.
#![tactic(auto)]

mod cores;
mod net;

pub use net::{Net, write_net};
