//! What is told of a signal.

ghost use Rattle.std.specs.Prelude.{◌≡◌};
ghost use Rattle.tta_waves.specs.Dump.{same_word};

/// What is told of a signal in a state: its word, none where it has none, and whether it has more
/// than one bit.
#[derive(Clone, Copy, Debug, PartialEq, Eq)]
pub struct Level {
    pub wide: bool,
    pub word: Option<u32>,
}

/// Whether two words are one.
pub fn same_word(a: Option<u32>, b: Option<u32>) -> bool
    ensures { result ≡ same_word a b }
{
    match (a, b) {
        (None, None) => true,
        (Some(a), Some(b)) => a == b,
        (None, Some(_)) | (Some(_), None) => false,
    }
}
