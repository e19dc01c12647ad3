//! A dump of a run that programs for waveforms read: the signals of the machine, cycle by cycle, named as
//! in the text of its circuit.
#![tactic(auto)]

mod changes;
mod cycling;
mod declare;
mod level;
mod levels;
mod moment;
mod signal;
mod signals;
mod waving;

pub use level::Level;
pub use signal::Signal;
pub use waving::waves;
