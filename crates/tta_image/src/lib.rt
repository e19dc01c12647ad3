//! Instructions as bits, and code with its data as the bytes of an image: the writer and the reader.
#![tactic(auto)]

mod bits;
mod fields;
mod header;
mod laws;
mod pairs;
mod read;
mod refusal;
mod search;
mod sink;
mod slots;
mod starts;
mod target;
mod words;
mod write;

pub use laws::{decodes_images, one_code, one_image};
pub use read::read_image;
pub use refusal::{ImageError, ImageRefusal};
pub use tta_arch::{BusFields, Layout};
pub use write::write_image;
