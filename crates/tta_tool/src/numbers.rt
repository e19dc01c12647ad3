//! The numbers among the words of a command.

ghost use Rattle.std.specs.Prelude.{◌≡◌, ◌≤◌, IfSome};
ghost use Rattle.tta_tool.specs.Numbers as spec;

use tta_load::digits_of;

/// Seeds are below this.
const SEEDS: u64 = 1 << 32;

/// A sample has fewer body lines than this.
const LINES: u64 = 20_001;

/// The seed that a word gives: one to ten decimal digits with a value below 2^32. `None` for any
/// other word.
pub fn seed_of(word: &[u8]) -> Option<u32>
    ensures { result ≡ spec.seed_of word.now }
{
    let seed = digits_of(word, 10, SEEDS)?;
    Some(seed as u32)
}

/// The number of body lines that a word gives: one to five decimal digits with a value from 1 to
/// 20,000. `None` for any other word.
pub fn lines_of(word: &[u8]) -> Option<u32>
    ensures value { result ≡ spec.lines_of word.now }
    ensures some { IfSome result (λ n. 1 ≤ n) }
    ensures few { IfSome result (λ n. n ≤ 20000) }
{
    let lines = digits_of(word, 5, LINES)?;
    if lines == 0 {
        return None;
    }
    Some(lines as u32)
}
