//! The words that a place keeps.

ghost use Rattle.std.specs.Prelude.{◌≡◌};
ghost use Rattle.tta_check.specs.Facts.{same_word};
ghost use Rattle.tta_check.specs.States.{with_word, with_two, join_words};

/// The words that a place keeps in some walks: none, one, or more than one, of which two are kept.
/// A word is known, or it is None.
#[derive(Clone, Copy, Debug)]
pub enum ValueSet {
    Nothing,
    One(Option<u32>),
    Two(Option<u32>, Option<u32>),
}

/// Whether two words are one.
pub fn same_word(a: Option<u32>, b: Option<u32>) -> bool
    ensures { result ≡ same_word a b }
{
    match a {
        None => b.is_none(),
        Some(x) => match b {
            None => false,
            Some(y) => x == y,
        },
    }
}

/// Words with one more.
pub fn with_word(values: ValueSet, word: Option<u32>) -> ValueSet
    ensures { result ≡ with_word values word }
{
    match values {
        ValueSet::Nothing => ValueSet::One(word),
        ValueSet::One(a) => {
            if same_word(a, word) {
                values
            } else {
                ValueSet::Two(a, word)
            }
        }
        ValueSet::Two(_, _) => values,
    }
}

/// Words with two more, which differ.
fn with_two(values: ValueSet, a: Option<u32>, b: Option<u32>) -> ValueSet
    ensures { result ≡ with_two values a b }
{
    match values {
        ValueSet::Nothing => ValueSet::Two(a, b),
        ValueSet::One(c) => {
            if same_word(c, a) {
                ValueSet::Two(a, b)
            } else {
                ValueSet::Two(c, a)
            }
        }
        ValueSet::Two(_, _) => values,
    }
}

/// The words of both.
pub fn join_words(values: ValueSet, other: ValueSet) -> ValueSet
    ensures { result ≡ join_words values other }
{
    match other {
        ValueSet::Nothing => values,
        ValueSet::One(a) => with_word(values, a),
        ValueSet::Two(a, b) => with_two(values, a, b),
    }
}
