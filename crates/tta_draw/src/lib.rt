//! Pictures of a machine and of its code, as SVG text.
#![tactic(auto)]

mod cells;
mod code_picture;
mod code_places;
mod colours;
mod columns;
mod delay_slots;
mod frame;
mod guides;
mod lanes;
mod laws;
mod legends;
mod machine_picture;
mod machine_places;
mod machine_widths;
mod parts;
mod ports;
mod remark;
mod results;
mod sizes;
mod span;
mod svg;
mod targets;
mod widths;
mod written;

pub use code_picture::draw_code;
pub use frame::{Frame, Spot};
pub use laws::names_are_plain;
pub use machine_picture::draw_machine;
pub use remark::Remark;
