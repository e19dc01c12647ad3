//! The language of register code: programs whose variables have home registers and slots of the
//! frame space, what such code means leg by leg, when it is closed, and how much it asks for.
#![tactic(auto)]

mod code;

pub use code::{Exit, Place, RBlock, RSrc, RStep, Rir};
