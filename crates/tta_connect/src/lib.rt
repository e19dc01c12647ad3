//! Which buses join the ends of a move, prepared so that an answer takes a few loads; and what the
//! compiler needs of a machine and chooses there.
#![tactic(auto)]

mod calls;
mod choice;
mod covered;
mod ends;
mod fields;
mod guard;
mod guards;
mod homes;
mod hub;
mod net;
mod ports;
mod target_machine;
mod units;
mod way;

pub use calls::{Call, anywhere, offered};
pub use choice::{Choice, CoverError, cover};
pub use covered::BuildTarget;
pub use net::Net;
pub use target_machine::TargetMachine;
pub use way::Way;
