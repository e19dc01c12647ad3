//! How far a run is to go.

ghost use Rattle.std.specs.Prelude.{◌≡◌, ◌<◌, ◌≤◌, ◌^◌, IfSome};
ghost use Rattle.tta_text.specs.Numbers.{digits_of, value_below};
ghost use Rattle.tta_load.specs.Runs as spec;

/// Bounds are below this.
const BOUNDS: u64 = 1 << 48;

/// The bound that a word gives: one to fifteen decimal digits with a value below 2^48. `None` for
/// any other word.
pub fn bound_of(word: &[u8]) -> Option<u64>
    ensures value { result ≡ spec.bound_of word.now }
    ensures small { IfSome result (λ n. n < 2 ^ 48) }
{
    digits_of(word, 15, BOUNDS)
}

/// The value of one to `most` decimal digits, where each byte is one and the value is below the
/// limit. `None` for any other word.
#[tactic(auto, unfolding(tta_text::specs::Numbers::digits_of))]
pub fn digits_of(word: &[u8], most: usize, limit: u64) -> Option<u64>
    requires some { 0 < limit }
    requires few { limit ≤ 2 ^ 48 }
    ensures value { result ≡ digits_of 10 most limit word.now }
    ensures small { IfSome result (λ n. n < limit) }
{
    if word.is_empty() || word.len() > most {
        return None;
    }
    value_of(word, limit)
}

/// The value of decimal digits, where each byte is one and the value is below the limit.
fn value_of(digits: &[u8], limit: u64) -> Option<u64>
    requires some { 0 < limit }
    requires few { limit ≤ 2 ^ 48 }
    ensures value { result ≡ value_below 10 limit digits.now }
    ensures small { IfSome result (λ n. n < limit) }
{
    let mut value = 0u64;
    'digits: for byte in digits {
        let digit = char::from(*byte).to_digit(10)?;
        value = value * 10 + u64::from(digit);
        if value >= limit {
            return None;
        }
    }
    Some(value)
}
