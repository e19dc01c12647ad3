//! Laws of the text of a machine with its code as a circuit.
#![tactic(auto)]

mod laws;

pub use laws::{
    one_boxed_text, one_file, one_text, one_trap_text, printed_boxed_text, printed_pins,
    printed_text,
};
