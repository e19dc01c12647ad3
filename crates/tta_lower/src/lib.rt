//! Lowering: the register code of a program, whose variables have home registers and slots of the
//! frame space.
#![tactic(auto)]

mod ends;
mod entry;
mod error;
mod kept;
mod law;
mod laying;
mod made;
mod numbers;
mod part;
mod parts;
mod plan;
mod register_code;
mod row;

pub use error::LowerError;
pub use law::{answers_know, lowers_well};
pub use part::Part;
pub use parts::all_parts;
pub use register_code::lower;
/// The types of the register code that `lower` makes.
pub use tta_lir::{Exit, Place, RBlock, RSrc, RStep, Rir};
