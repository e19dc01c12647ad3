//! Costs of parts of circuits.

ghost use Rattle.std.specs.Prelude.{◌≡◌};
ghost use Rattle.tta_measure.specs.Cost as c;

/// How many units of depth a choice between two words counts.
pub const CHOICE: u64 = 1;
/// A gate.
pub const GATE: u64 = 1;
/// Whether two words are equal.
pub const EQUAL: u64 = 2;
/// A sum, a difference, or which of two words is less.
pub const SUM: u64 = 4;
/// A shift by a word.
pub const SHIFT: u64 = 5;
/// A product.
pub const PRODUCT: u64 = 10;
/// A quotient or a rest.
pub const QUOTIENT: u64 = 160;
/// A word of a memory.
pub const READ: u64 = 4;

/// What a part of a circuit is made of, and how deep it is. A number that would be greater than the
/// greatest stays there.
#[derive(Clone, Copy, Debug, PartialEq, Eq)]
pub struct Cost {
    /// Bits of registers.
    pub bits: u64,
    /// Choices between two bits.
    pub choices: u64,
    /// The longest path to its end, in units of depth.
    pub depth: u64,
}

impl Cost {
    ghost use Rattle.std.specs.Prelude.{◌≡◌};
    ghost use Rattle.tta_measure.specs.Cost as c;
    ghost use Rattle.tta_measure.specs.Table.{gate_depth};

    /// What costs nothing.
    pub fn free() -> Cost
        ensures { result ≡ c.free }
    {
        Cost {
            bits: 0,
            choices: 0,
            depth: 0,
        }
    }

    /// A signal whose word this is, where it is read.
    #[tactic(auto, unfolding(crate::specs::Cost::at))]
    pub fn read(self) -> Cost
        ensures { result ≡ c.at self.depth }
    {
        Cost {
            bits: 0,
            choices: 0,
            depth: self.depth,
        }
    }

    /// Two parts beside each other.
    #[tactic(auto, unfolding(crate::specs::Cost::beside, crate::specs::Cost::plus))]
    pub fn beside(self, other: Cost) -> Cost
        ensures { result ≡ c.beside self other }
    {
        Cost {
            bits: self.bits.saturating_add(other.bits),
            choices: self.choices.saturating_add(other.choices),
            depth: self.depth.max(other.depth),
        }
    }

    /// A part of so many units of depth behind others.
    #[tactic(auto, unfolding(crate::specs::Cost::behind, crate::specs::Cost::plus))]
    pub fn behind(self, depth: u64) -> Cost
        ensures { result ≡ c.behind depth self }
    {
        Cost {
            depth: self.depth.saturating_add(depth),
            ..self
        }
    }

    /// A choice between two words of so many bits behind others.
    #[tactic(auto, unfolding(crate::specs::Cost::chosen, crate::specs::Cost::plus))]
    pub fn chosen(self, width: u64) -> Cost
        ensures { result ≡ c.chosen width self }
    {
        Cost {
            bits: self.bits,
            choices: self.choices.saturating_add(width),
            depth: self.depth.saturating_add(CHOICE),
        }
    }

    /// A choice between two words of so many bits by a test.
    pub fn choice(width: u64, test: Cost, on: Cost, off: Cost) -> Cost
        ensures { result ≡ c.chosen width (c.beside test (c.beside on off)) }
    {
        test.beside(on.beside(off)).chosen(width)
    }

    /// A gate of two words or tests.
    pub fn gate(self, other: Cost) -> Cost
        ensures { result ≡ c.behind gate_depth (c.beside self other) }
    {
        self.beside(other).behind(GATE)
    }

    /// A register of so many bits behind others.
    #[tactic(auto, unfolding(crate::specs::Cost::held, crate::specs::Cost::plus))]
    pub fn held(self, width: u64) -> Cost
        ensures { result ≡ c.held width self }
    {
        Cost {
            bits: self.bits.saturating_add(width),
            ..self
        }
    }
}
