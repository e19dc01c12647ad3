//! What a command is given and how it ends: the files that its words name, read and checked one after
//! the other, and what is written or put at the end.
#![tactic(auto)]

mod assembly;
mod bound;
mod image;
mod input;
mod machine;
mod pair;
mod program;
mod put;
mod reading;
mod source;
mod status;
mod write;

pub use bound::{bound_of, digits_of};
pub use image::{image_of_whole, whole_file, whole_of};
pub use input::{Given, given_files, input_file, stream_file};
pub use machine::{MachineFile, data_words, described, machine_file};
pub use pair::{CodePair, ProgramPair, assembly_pair, image_pair, program_pair};
pub use program::program_of;
pub use put::put_made;
pub use reading::read_file;
pub use source::source_file;
pub use status::Status;
pub use write::write_made;
