//! Operations of the standard units as circuits: wires and a word of plain forms, and what they are worth.
#![tactic(auto)]

mod laws;

pub use laws::{are_made, divides_in_steps, makes_anywhere, settles_to, stage_divides};
