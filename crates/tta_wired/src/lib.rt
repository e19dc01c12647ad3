//! The module that joins cores by queues, as `rtl net` prints it: what it does.
#![tactic(auto)]

mod laws;

pub use laws::{
    inputs_come_in, net_agrees, net_finishes, net_is_ordered, net_is_wired, net_puts_all, net_runs,
    net_settles,
};
