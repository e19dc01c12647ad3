//! The values of numbers.

ghost use Rattle.std.specs.Prelude.{◌≡◌, ◌^◌, ◌<◌, ◌≤◌};
ghost use Rattle.tta_text.specs.Numbers as spec;

/// Numbers are below this.
const WORDS: u64 = 1 << 32;

/// Negative numbers are at most this below 0.
const LOWEST: u64 = 1 << 31;

/// The value of a token of kind `Number`, and `None` for all other bytes.
#[tactic(auto, unfolding(crate::specs::Numbers::number_of))]
pub fn number(word: &[u8]) -> Option<u32>
    ensures { result ≡ spec.number_of word.now }
{
    if word.starts_with(b"0x") {
        digits(16, 8, WORDS, &word[2..])
    } else {
        digits(10, 10, WORDS, word)
    }
}

/// The value of a token of kind `Negative`, as the word that stands for it: 2^32 minus what
/// follows the `-`, and 0 for `-0`. `None` for all other bytes.
#[tactic(auto, unfolding(crate::specs::Numbers::negative_of))]
pub fn negative(word: &[u8]) -> Option<u32>
    ensures { result ≡ spec.negative_of word.now }
{
    if !word.starts_with(b"-") {
        return None;
    }
    let magnitude = digits(10, 10, LOWEST + 1, &word[1..])?;
    Some(magnitude.wrapping_neg())
}

/// The value of one to `most` digits of the base, where it is below the limit.
#[tactic(auto, unfolding(crate::specs::Numbers::digits_of))]
fn digits(base: u32, most: usize, limit: u64, word: &[u8]) -> Option<u32>
    requires low { 2 ≤ base }
    requires high { base ≤ 16 }
    requires some { 0 < limit }
    requires words { limit ≤ 2 ^ 32 }
    ensures { result ≡ spec.digits_of base most limit word.now }
{
    if word.is_empty() || word.len() > most {
        return None;
    }
    value_below(base, limit, word)
}

/// The value of digits of the base, where each byte is one and the value is below the limit.
fn value_below(base: u32, limit: u64, digits: &[u8]) -> Option<u32>
    requires low { 2 ≤ base }
    requires high { base ≤ 16 }
    requires some { 0 < limit }
    requires words { limit ≤ 2 ^ 32 }
    ensures { result ≡ spec.value_below base limit digits.now }
{
    let mut value = 0u64;
    'digits: for byte in digits {
        let digit = char::from(*byte).to_digit(base)?;
        value = value * u64::from(base) + u64::from(digit);
        if value >= limit {
            return None;
        }
    }
    Some(value as u32)
}
