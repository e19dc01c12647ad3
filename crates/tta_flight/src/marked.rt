//! A set of units.

ghost use Rattle.std.specs.Prelude.{◌≢◌, ◌/◌, ◌%◌, ◌*◌, ◌+◌, ◌-◌, ◌≡◌, ◌<◌, ◌≤◌, ◌^◌, ◌==◌};
ghost use Rattle.std.specs.Prelude.{◌||◌, ◌&&◌, ℕ, not, false};
ghost use Rattle.std.specs.Int.{bit_at};
ghost use Rattle.tta_flight.specs.Marked.{has, AreBits};

/// A set of units below 256: bit k of word w stands for unit `64 * w + k`.
#[derive(Clone, Copy)]
pub struct Marked {
    words: [u64; 4],
}

impl Marked {
    /// The set of no units.
    pub fn none() -> Marked
        ensures { (unit : ℕ) → has result unit ≡ false }
    {
        Marked { words: [0; 4] }
    }

    /// Whether a unit is in the set.
    #[inline(always)]
    pub fn has(&self, unit: usize) -> bool
        requires { unit < 256 }
        ensures { result ≡ has self.now unit }
    {
        (self.words[unit / 64] >> (unit % 64)) % 2 == 1
    }

    /// Adds a unit.
    pub fn add(&mut self, unit: usize)
        requires { unit < 256 }
        ensures { (k : ℕ) → has self.new k ≡ (has self.old k || unit == k) }
    {
        self.words[unit / 64] |= one_bit(unit % 64);
    }

    /// Takes a unit out.
    pub fn remove(&mut self, unit: usize)
        requires { unit < 256 }
        ensures { (k : ℕ) → has self.new k ≡ (has self.old k && not (unit == k)) }
    {
        self.words[unit / 64] &= !one_bit(unit % 64);
    }

    /// Takes a unit out, if it is to be taken out.
    pub fn remove_if(&mut self, unit: usize, is_over: bool)
        requires { unit < 256 }
        ensures { (k : ℕ) → has self.new k ≡ (has self.old k && not (is_over && unit == k)) }
    {
        if is_over {
            self.remove(unit);
        }
    }

    /// Takes out those of 64 units, from unit `64 * number` on, that have one of these bits.
    #[inline(always)]
    pub fn remove_bits(&mut self, number: usize, among: u64)
        requires { number < 4 }
        ensures { (k : ℕ) → has self.new k
            ≡ (has self.old k && not (k / 64 == number && bit_at among (k % 64) == 1)) }
    {
        self.words[number] &= !among;
    }

    /// The word that has the bits of 64 units, from unit `64 * number` on.
    #[inline(always)]
    fn word(&self, number: usize) -> u64
        requires { number < 4 }
        ensures { (k : ℕ) → k / 64 ≡ number → bit_at result (k % 64) ≡ 0 → has self.now k ≡ false }
    {
        self.words[number]
    }

    /// Those of these bits that are in the word of 64 units, from unit `64 * number` on.
    #[inline(always)]
    pub fn bits_in(&self, number: usize, among: u64) -> u64
        requires { number < 4 }
        ensures none { (k : ℕ) → k / 64 ≡ number → bit_at among (k % 64) ≡ 1
            → bit_at result (k % 64) ≡ 0 → has self.now k ≡ false }
        ensures some { (i : ℕ) → bit_at result i ≡ 1 → bit_at among i ≡ 1 }
    {
        self.word(number) & among
    }
}

/// The word of one bit.
fn one_bit(bit: usize) -> u64
    requires { bit < 64 }
    ensures { result ≡ 2 ^ bit }
{
    1 << bit
}

/// The word that has so many bits from one on.
#[inline(always)]
fn bits_from(low: usize, count: usize) -> u64
    requires first { low < 64 }
    requires few { count < 64 }
    requires last { low + count ≤ 64 }
    ensures { result ≡ 2 ^ (low + count) - 2 ^ low }
{
    (one_bit(count) - 1) << low
}

/// The word that has the bits from one on and before another.
#[inline(always)]
fn bits_between(low: usize, high: usize) -> u64
    requires order { low ≤ high }
    requires first { low < 64 }
    requires last { high ≤ 64 }
    ensures { result ≡ 2 ^ high - 2 ^ low }
{
    if high - low == 64 {
        return u64::MAX;
    }
    bits_from(low, high - low)
}

/// The bits that stand for the units from one on and before an end, in the word of 64 units from
/// unit `64 * number` on.
#[inline(always)]
pub fn bits_of_word(number: usize, from: usize, end: usize) -> u64
    requires order { from ≤ end }
    requires first { from < 64 * number + 64 }
    requires last { 64 * number < end }
    requires word { number < 4 }
    ensures { AreBits number from end result }
{
    let first = 64 * number;
    let low = from.saturating_sub(first);
    let high = (end - first).min(64);
    bits_between(low, high)
}

/// The same for so many units from one on, where one word has all of them.
#[inline(always)]
pub fn bits_of_units(from: usize, count: usize) -> u64
    requires { from % 64 + count < 64 }
    ensures { AreBits (from / 64) from (from + count) result }
{
    bits_from(from % 64, count)
}

/// The least bit of a word that has one.
pub fn least_bit(word: u64) -> usize
    requires { 0 < word }
    ensures few { result < 64 }
    ensures some { bit_at word result ≡ 1 }
    ensures none { (i : ℕ) → i < result → bit_at word i ≡ 0 }
{
    word.trailing_zeros() as usize
}

/// A word without one bit.
pub fn without_bit(word: u64, bit: usize) -> u64
    requires { bit < 64 }
    ensures others { (i : ℕ) → i ≢ bit → i < 64 → bit_at result i ≡ bit_at word i }
    ensures none { bit_at result bit ≡ 0 }
{
    word & !one_bit(bit)
}
