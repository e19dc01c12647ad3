//! Which words a bus's short field holds.

ghost use Rattle.std.specs.Prelude.{◌≡◌, ◌≤◌, ◌-◌, ◌^◌, ◌/◌, nat_lt, true};
ghost use Rattle.tta_arch.specs.Joins.{holds_word};
ghost use Rattle.tta_arch.specs.Rules.{is_bus};

use crate::parts::Bus;

impl Bus {
    /// Whether the short field holds a word. A field of n bits holds the words below 2^n; a signed
    /// one holds the words whose upper 33 - n bits are equal.
    pub fn holds(&self, word: u32) -> bool
        requires { is_bus self.now ≡ true }
        ensures { result ≡ holds_word self.now word }
    {
        if self.signed {
            let high = high_bits(word, self.short);
            high == 0 || high == ones(self.short)
        } else {
            is_below(word, self.short)
        }
    }
}

/// The bits from the field's highest on.
fn high_bits(word: u32, short: u8) -> u64
    requires low { 1 ≤ short }
    requires high { short ≤ 32 }
    ensures { result ≡ word / 2 ^ (short - 1) }
{
    u64::from(word >> (short - 1))
}

/// As many ones as there are such bits.
fn ones(short: u8) -> u64
    requires low { 1 ≤ short }
    requires high { short ≤ 32 }
    ensures { result ≡ 2 ^ (33 - short) - 1 }
{
    (1u64 << (33 - short)) - 1
}

/// Whether a word has no more bits than this.
fn is_below(word: u32, short: u8) -> bool
    requires { short ≤ 32 }
    ensures { result ≡ nat_lt word (2 ^ short) }
{
    u64::from(word) < 1u64 << short
}
