//! The language of machines: what a machine is made of, the rules that every machine keeps, which of
//! its places a bus joins, what one move does, which instructions are legal, and how their fields
//! are laid out.
#![tactic(auto)]

mod codes;
mod ends;
mod joins;
mod layout;
mod machine;
mod parts;
mod sets;
mod word;

pub use ends::{Dest, GuardRef, Source};
pub use joins::{has_bus, has_socket, has_source_socket, is_dest_on};
pub use layout::{BusFields, Layout};
pub use machine::Machine;
pub use parts::{Bus, Control, File, Guard, ImmUnit, Op, Socket, Template, Unit, UnitOp, same_op};
pub use sets::{bus_bit, least_bus, unit_bit, with_bus, with_unit};
