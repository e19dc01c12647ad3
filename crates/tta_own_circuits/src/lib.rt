//! Units that hand in the circuits of their operations: the command `circuit`, which prints the function
//! of such an operation as a file for `rtl`, and these functions in the place of such files in its text.
#![tactic(auto)]

mod command;
mod included;
mod kept;
mod laws;
mod text;
mod unit;

pub use command::{is_circuit, is_rtl, show_function};
pub use included::{put_with_functions, with_functions};
pub use kept::KeptText;
pub use laws::functions_stand;
pub use text::write_function;
pub use unit::{CircuitText, CircuitUnit};
