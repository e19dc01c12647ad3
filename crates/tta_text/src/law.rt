//! What tokens are and what numbers are worth, said of their bytes alone.

ghost use Rattle.std.specs.Prelude.{◌≡◌, ℕ, List};
ghost use Rattle.tta_text.specs.declared.lexeme.Token.{Token};
ghost use Rattle.tta_text.specs.Covers.{Covers};
ghost use Rattle.tta_text.specs.Numbers.{number_of, negative_of};
ghost use Rattle.tta_text.specs.Tokens.{tokens_of};
ghost use Rattle.tta_text.specs.Words.{IsNumberWorth, IsNegativeWorth};

/// The tokens of a text rise and do not overlap. Between them stand only blanks and comments, and
/// each is the longest that any kind allows at its place. No other list of tokens is so.
pub fn tokens_cover()
    ensures cover { (text : List ℕ) → Covers text (tokens_of text) }
    ensures only { (text : List ℕ) (tokens : List Token)
        → Covers text tokens → tokens ≡ tokens_of text }
{}

/// A number is worth what its digits are at their places, and a negative number as much below 2^32.
/// No other bytes have a value.
pub fn digits_count_by_place()
    ensures number { (word : List ℕ) → IsNumberWorth word (number_of word) }
    ensures negative { (word : List ℕ) → IsNegativeWorth word (negative_of word) }
{}
