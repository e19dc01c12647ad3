//! The forms of a machine text's lines: which words a declaration is made of.
//!
//! Each function takes the words of a line after its first, which chooses the form, and gives what
//! they say, or `None` where they are not of the form. No number is compared with its limits here,
//! and no name is looked up.

mod parts;
mod pieces;
mod uses;

pub use parts::{bus_form, file_form, imm_form, socket_form, unit_form};
pub use uses::{control_form, guard_form, op_form, space_form, template_form};
