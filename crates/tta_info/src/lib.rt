//! What `info` tells of a machine and of an image, as text.
#![tactic(auto)]

mod buses;
mod chosen;
mod image_info;
mod lines;
mod machine_info;
mod parts;

pub use image_info::tell_image;
pub use machine_info::tell_machine;
