//! The command `net`: cores joined by queues. It reads the links and the files of each core, makes
//! rounds, and tells what each core has output and how it has ended.
#![tactic(auto)]

mod command;
mod cores;
mod files;
mod report;
mod request;

pub use command::run_net;
pub use cores::{Cores, core_files};
pub use files::links_file;
pub use request::{NetRequest, is_net, rounds_of};
