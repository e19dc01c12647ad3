//! What single words and runs of words of a program's line have to be.

ghost use Rattle.std.specs.Prelude.{◌≡◌, map, option_map, is_some};
ghost use Rattle.std.specs.List.{list_all};
ghost use Rattle.tta_parse.specs.Lines.{plain, texts};
ghost use Rattle.tta_tac.specs.Forms as spec;
ghost use Rattle.tta_tac.specs.Seen.{operand_seen, operands_in};

use crate::forms::Operand;
use tta_ops::is_reserved;
use tta_parse::Word;
use tta_program::Rel;

/// The bytes of a name that is no reserved word.
pub fn free_name<'t>(word: &Word<'t>) -> Option<&'t [u8]>
    ensures { option_map (λ n. n.now) result ≡ spec.free_name (plain word.now) }
{
    let name = word.name()?;
    if is_reserved(name) { None } else { Some(name) }
}

/// An operand: a free name, or a constant.
pub fn operand_of<'t>(word: &Word<'t>) -> Option<Operand<'t>>
    ensures { option_map operand_seen result ≡ spec.operand_of (plain word.now) }
{
    match free_name(word) {
        Some(name) => Some(Operand::Named(name)),
        None => match word.constant() {
            Some(value) => Some(Operand::Constant(value)),
            None => None,
        },
    }
}

/// The relation of a condition.
pub fn rel_of(word: &Word) -> Option<Rel>
    ensures { result ≡ spec.rel_of (plain word.now) }
{
    if word.is_keyword(b"eq") {
        Some(Rel::Eq)
    } else if word.is_keyword(b"ne") {
        Some(Rel::Ne)
    } else if word.is_keyword(b"lt") {
        Some(Rel::Lt)
    } else if word.is_keyword(b"ge") {
        Some(Rel::Ge)
    } else if word.is_keyword(b"ltu") {
        Some(Rel::Ltu)
    } else if word.is_keyword(b"geu") {
        Some(Rel::Geu)
    } else {
        None
    }
}

/// Whether all words are operands.
fn are_operands(words: &[Word]) -> bool
    ensures { result ≡ list_all (λ w. is_some (spec.operand_of (plain w))) words.now }
{
    for word in words {
        if operand_of(word).is_none() {
            return false;
        }
    }
    true
}

/// Whether all words are free names.
fn are_free_names(words: &[Word]) -> bool
    ensures { result ≡ list_all (λ w. is_some (spec.free_name (plain w))) words.now }
{
    for word in words {
        if free_name(word).is_none() {
            return false;
        }
    }
    true
}

/// Words, where all of them are operands; they stand for those.
#[tactic(auto, using(crate::proofs::Runs::operands_alone_of))]
pub fn operands_alone<'w, 't>(words: &'w [Word<'t>]) -> Option<&'w [Word<'t>]>
    ensures { option_map (λ w. operands_in w.now) result
        ≡ spec.operands_alone (map plain words.now) }
{
    if are_operands(words) {
        Some(words)
    } else {
        None
    }
}

/// Words, where all of them are free names; they stand for those.
#[tactic(auto, using(crate::proofs::Runs::names_alone_of))]
pub fn names_alone<'w, 't>(words: &'w [Word<'t>]) -> Option<&'w [Word<'t>]>
    ensures { option_map (λ w. texts w.now) result ≡ spec.names_alone (map plain words.now) }
{
    if are_free_names(words) {
        Some(words)
    } else {
        None
    }
}
