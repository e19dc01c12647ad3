//! The canonical text of code with its data, as assembly, and the names that it gives to the parts of a
//! machine.
#![tactic(auto)]

mod named;
mod print;

pub use named::{file_name, imm_name, op_name, template_name, unit_name};
pub use print::{disassemble, push_instruction, push_move, push_place};
