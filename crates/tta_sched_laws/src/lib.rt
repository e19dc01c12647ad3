//! What the code of a placed list of moves does, against what the list does without overlap; and
//! when code that is linked from such lists agrees with its program.
#![tactic(auto)]

mod laws;

pub use laws::{blocks_overlap, built_agrees};
