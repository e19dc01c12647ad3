//! A word of a line.

use tta_text::Kind;

/// A token with its bytes. Line ends are no words.
#[derive(Clone, Copy)]
pub struct Word<'t> {
    pub kind: Kind,
    pub text: &'t [u8],
}
