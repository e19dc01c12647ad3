//! The commands that show a designer what a machine and its code are, what a run does, and what a program becomes on the
//! way to code. Of the compiler they know its stages, by tta_stages.
#![tactic(auto)]

mod command;
mod compiled;
mod costing;
mod depths;
mod drawing;
mod joining;
mod laws;
mod marks;
mod names;
mod prompting;
mod remarking;
mod request;
mod rtl_words;
mod run_words;
mod running;
mod staging;
mod subject;
mod view;
mod writing;

pub use command::show;
pub use laws::{
    circuit_by_status, cost_by_status, image_size, info_by_status, machine_by_status,
    picture_by_status, prompt_by_status, run_by_status, stages_by_status,
};
pub use request::is_named;
pub use view::{CircuitView, RunView, StagesView, View};
