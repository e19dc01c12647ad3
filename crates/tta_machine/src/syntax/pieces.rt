//! What single words and short runs of words of a line have to be.

ghost use Rattle.std.specs.Prelude.{◌≡◌, map, option_map};
ghost use Rattle.std.specs.List.{list_all};
ghost use Rattle.tta_parse.specs.Lines.{plain, texts};
ghost use Rattle.tta_parse.specs.Words.{is_name_kind};
ghost use Rattle.tta_machine.specs.Forms as spec;

use tta_parse::Word;
use tta_text::Kind;

/// Whether a word is the first of two keywords, where it is one of them.
pub fn one_of_two(first: &[u8], second: &[u8], word: &Word) -> Option<bool>
    ensures { result ≡ spec.one_of_two first.now second.now (plain word.now) }
{
    if word.is_keyword(first) {
        Some(true)
    } else if word.is_keyword(second) {
        Some(false)
    } else {
        None
    }
}

/// The number after a keyword.
pub fn keyed_value(keyword: &[u8], key: &Word, value: &Word) -> Option<u32>
    ensures { result ≡ spec.keyed_value keyword.now (plain key.now) (plain value.now) }
{
    if key.is_keyword(keyword) {
        value.value()
    } else {
        None
    }
}

/// The name after a keyword.
pub fn keyed_name<'t>(keyword: &[u8], key: &Word<'t>, name: &Word<'t>) -> Option<&'t [u8]>
    ensures { option_map (λ n. n.now) result
        ≡ spec.keyed_name keyword.now (plain key.now) (plain name.now) }
{
    if key.is_keyword(keyword) {
        name.name()
    } else {
        None
    }
}

/// Whether each word is a name.
fn are_names(words: &[Word]) -> bool
    ensures { result ≡ list_all (λ w. is_name_kind w.kind) words.now }
{
    words.iter().all(|word| word.kind == Kind::Name)
}

/// Words, where all of them are names.
#[tactic(auto, using(crate::proofs::Names::names_alone_of))]
pub fn names_alone<'t>(words: &'t [Word<'t>]) -> Option<&'t [Word<'t>]>
    ensures { option_map (λ w. texts w.now) result ≡ spec.names_alone (map plain words.now) }
{
    if are_names(words) { Some(words) } else { None }
}
