//! The reader of machine texts: their grammar, and the first refusal of a text that is no machine's.
//! The machine itself stands in `tta_arch`, and is handed on here.
#![tactic(auto)]

mod bus_sets;
mod buses;
mod complete;
mod control;
mod draft;
mod files;
mod forms;
mod guards;
mod laws;
mod limits;
mod lines;
mod lookups;
mod operations;
mod read;
mod refusal;
mod services;
mod syntax;
mod templates;
mod units;

pub use laws::texts_are_machines;
pub use read::read_machine;
pub use refusal::{MachineError, Refusal};
pub use tta_arch::{
    Bus, BusFields, Control, Dest, File, Guard, GuardRef, ImmUnit, Layout, Machine, Op, Socket,
    Source, Template, Unit, UnitOp, has_bus,
};
