//! What the text of a circuit is, in a part of Verilog-2001, and the writers of its tokens.
#![tactic(auto)]

mod laws;
mod tokens;

pub use laws::{one_circuit, one_circuit_beside, one_expression};
pub use tokens::{
    push_bit, push_constant, push_number, push_part_of, push_part_select, push_range, push_text,
};
