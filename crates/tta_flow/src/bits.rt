//! Rows of bits.

ghost use Rattle.std.specs.Prelude.{◌≡◌, ◌+◌, ◌<◌, ◌≤◌, ◌/◌, ◌%◌, ◌==◌, ◌||◌, ◌&&◌, not, ◌^◌, ℕ, false};
ghost use Rattle.std.specs.Prelude.{true, length, slice_index, bit_or, IfOk};
ghost use Rattle.tta_flow.specs.Bits.{has, covers, covered_to, clear_from};
ghost use Rattle.tta_flow.specs.Growth.{Grows, Sets};
ghost use Rattle.std.specs.Int.{bit_at};

use std::alloc::{AllocError, Global};
use tta_list::either;

/// A row of bits, 64 a word.
#[derive(Drop)]
pub struct BitRow {
    words: Vec<u64>,
}

impl BitRow {
    /// A row with room for bits below a number, none of them set.
    pub fn new(alloc: Global, bits: usize) -> Result<Self, AllocError>
        ensures clear { IfOk result (λ row. (k : ℕ) → has row k ≡ false) }
        ensures room { IfOk result (λ row. length row.words.items ≡ bits / 64 + 1) }
    {
        Ok(BitRow {
            words: vec![in alloc; 0; bits / 64 + 1]?,
        })
    }

    /// Whether a bit is set.
    pub fn get(&self, bit: usize) -> bool
        ensures { result ≡ has self.now bit }
    {
        if bit / 64 < self.words.len() {
            is_set(self.words[bit / 64], bit % 64)
        } else {
            false
        }
    }

    /// Sets a bit that there is room for.
    pub fn set(&mut self, bit: usize)
        requires { bit / 64 < length self.old.words.items }
        ensures bits { (k : ℕ) → has self.new k ≡ (has self.old k || bit == k) }
        ensures room { length self.new.words.items ≡ length self.old.words.items }
    {
        let word = &mut self.words[bit / 64];
        *word |= one_bit(bit % 64);
    }

    /// Sets a bit, where there is room for it.
    pub fn set_within(&mut self, bit: usize)
        ensures { Sets (λ k. bit == k) self.old self.new }
    {
        if bit / 64 < self.words.len() {
            self.set(bit);
        }
    }

    /// Unsets a bit.
    pub fn unset(&mut self, bit: usize)
        ensures bits { (k : ℕ) → has self.new k ≡ (has self.old k && not (bit == k)) }
        ensures room { length self.new.words.items ≡ length self.old.words.items }
    {
        if bit / 64 < self.words.len() {
            self.unset_there(bit);
        }
    }

    /// Unsets a bit that there is room for.
    fn unset_there(&mut self, bit: usize)
        requires { bit / 64 < length self.old.words.items }
        ensures bits { (k : ℕ) → has self.new k ≡ (has self.old k && not (bit == k)) }
        ensures room { length self.new.words.items ≡ length self.old.words.items }
    {
        let word = &mut self.words[bit / 64];
        *word &= !one_bit(bit % 64);
    }

    /// Unsets all bits.
    pub fn clear(&mut self)
        ensures bits { (k : ℕ) → has self.new k ≡ false }
        ensures room { length self.new.words.items ≡ length self.old.words.items }
    {
        for at in 0..self.words.len() {
            self.words[at] = 0;
        }
    }

    /// Sets the bits of another row of the same room, and says whether any of them is new.
    pub fn absorb(&mut self, other: &BitRow) -> bool
        requires { length other.now.words.items ≡ length self.old.words.items }
        ensures bits { (k : ℕ) → has self.new k ≡ (has self.old k || has other.now k) }
        ensures grows { Grows result self.old self.new }
    {
        let mut grown = false;
        for at in 0..other.words.len() {
            let more = self.absorb_word(at, other.words[at]);
            grown = either(grown, more);
        }
        grown
    }

    /// Sets the bits of another row, as far as there is room.
    pub fn add(&mut self, other: &BitRow)
        ensures { Sets (has other.now) self.old self.new }
    {
        let mut grown = false;
        for at in 0..self.words.len() {
            let more = self.absorb_word(at, other.word(at));
            grown = either(grown, more);
        }
    }

    /// Whether all bits of a word of another row are set here too.
    pub fn covers_word(&self, other: &BitRow, at: usize) -> bool
        ensures value { result ≡ covers self.now other.now at }
        ensures all { result ≡ true → (k : ℕ) → k / 64 ≡ at
            → has other.now k ≡ true → has self.now k ≡ true }
    {
        let word = self.word(at);
        joined(word, other.word(at)) == word
    }

    /// The end of the word of a bit, where all bits of that word of another row are set here too,
    /// and else the bit itself. So of the other row's bits from there up to it none is missing.
    pub fn covered_to(&self, other: &BitRow, bit: usize) -> usize
        requires { bit + 64 < 2 ^ 64 }
        ensures value { result ≡ covered_to self.now other.now bit }
        ensures low { bit ≤ result }
        ensures all { (k : ℕ) → bit ≤ k → k < result
            → has other.now k ≡ true → has self.now k ≡ true }
    {
        let at = bit / 64;
        if self.covers_word(other, at) {
            at * 64 + 64
        } else {
            bit
        }
    }

    /// The first place of the word before a bit, where that word has no bits, and else the bit
    /// itself. So no bit is set from there up to it.
    pub fn clear_from(&self, bit: usize) -> usize
        ensures value { result ≡ clear_from self.now bit }
        ensures low { result ≤ bit }
        ensures none { (k : ℕ) → result ≤ k → k < bit → has self.now k ≡ false }
    {
        if bit == 0 {
            return bit;
        }
        let at = (bit - 1) / 64;
        if self.word(at) == 0 { at * 64 } else { bit }
    }

    /// A word of the row; past its end it is 0.
    fn word(&self, at: usize) -> u64
        ensures { result ≡ slice_index self.now.words.items at }
    {
        if at < self.words.len() {
            self.words[at]
        } else {
            0
        }
    }

    /// Sets the bits of a word, and says whether any of them is new.
    fn absorb_word(&mut self, at: usize, word: u64) -> bool
        requires { at < length self.old.words.items }
        ensures bits { (k : ℕ) → has self.new k
            ≡ (has self.old k || (k / 64 == at && bit_at word (k % 64) == 1)) }
        ensures grows { Grows result self.old self.new }
    {
        let old = self.words[at];
        let both = joined(old, word);
        if both == old {
            return false;
        }
        self.words[at] = both;
        true
    }
}

/// Whether a word has a bit.
fn is_set(word: u64, bit: usize) -> bool
    requires { bit < 64 }
    ensures { result ≡ (bit_at word bit == 1) }
{
    (word >> bit) & 1 == 1
}

/// The word of one bit.
fn one_bit(bit: usize) -> u64
    requires { bit < 64 }
    ensures { result ≡ 2 ^ bit }
{
    1 << bit
}

/// The word of the bits of two.
fn joined(a: u64, b: u64) -> u64
    ensures { result ≡ bit_or a b }
{
    a | b
}
