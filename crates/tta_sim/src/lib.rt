//! The run of a machine's code by its meaning, one cycle a call.
#![tactic(auto)]

mod begin;
mod carry;
mod control;
mod control_moves;
mod cycle_step;
mod decode;
mod decoded;
mod dues;
mod ending;
mod fault;
mod flat;
mod in_place;
mod known;
mod lines;
mod mark;
mod order;
mod places;
mod ready;
mod results;
mod run;
mod settled_state;
mod short;
mod sim;
mod sim_words;
mod spaces;
mod starts;
mod state;
mod state_words;
mod store;
mod stretch;
mod unset;
mod writing;

pub use cycle_step::CycleStep;
pub use ending::Ending;
pub use sim::Sim;
pub use state::SimState;
