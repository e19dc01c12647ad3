//! Queues between circuits: first in, first out, with ready and valid at both ends.
#![tactic(auto)]

mod laws;

pub use laws::{queue_begins, queue_clocks, queue_holds, queue_is_said, queue_looks};
