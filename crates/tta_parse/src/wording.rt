//! What a single word of a line can be.

ghost use Rattle.std.specs.Prelude.{◌≡◌, option_map};
ghost use Rattle.tta_parse.specs.Lines.{plain};
ghost use Rattle.tta_parse.specs.Words as spec;

use crate::word::Word;
use tta_text::{Kind, negative, number};

impl<'t> Word<'t> {
    /// Whether this is a certain word of the language, as `bus`.
    pub fn is_keyword(&self, keyword: &[u8]) -> bool
        ensures { result ≡ spec.is_keyword keyword.now (plain self.now) }
    {
        self.kind == Kind::Name && self.text == keyword
    }

    /// Whether this is a certain mark, as `->`.
    pub fn is_mark(&self, mark: &[u8]) -> bool
        ensures { result ≡ spec.is_mark mark.now (plain self.now) }
    {
        self.kind == Kind::Mark && self.text == mark
    }

    /// The bytes of a name, and `None` for a word of any other kind.
    pub fn name(&self) -> Option<&'t [u8]>
        ensures { option_map (λ text. text.now) result ≡ spec.name_of (plain self.now) }
    {
        match self.kind {
            Kind::Name => Some(self.text),
            _ => None,
        }
    }

    /// The value of a number, and `None` for a word of any other kind.
    pub fn value(&self) -> Option<u32>
        ensures { result ≡ spec.value_of (plain self.now) }
    {
        match self.kind {
            Kind::Number => number(self.text),
            _ => None,
        }
    }

    /// The value of a number, or of a negative number as the word that stands for it, and `None`
    /// for a word of any other kind.
    pub fn constant(&self) -> Option<u32>
        ensures { result ≡ spec.constant_of (plain self.now) }
    {
        match self.kind {
            Kind::Number => number(self.text),
            Kind::Negative => negative(self.text),
            _ => None,
        }
    }
}
