//! The form of a piece: which words it is made of.
//!
//! Each function takes the words that are left of a piece and the line of what closes it, and gives
//! what it read with the words after that. An `Err` is the line of the first word that does not
//! fit, or that of what closes the piece where a word is missing. Nothing here takes memory, and
//! whether a name is known is not judged here.

mod datum;
mod dests;
mod moves;
mod read;
mod sources;
mod whole;

pub use datum::{begins_datum, datum_form};
pub use read::line_of;
pub use whole::piece_form;
