//! The circuit of a built image does what the program does.
#![tactic(auto)]

mod laws;

pub use laws::{built_does, built_tells_none, circuit_does, circuit_tells_none, image_does};
