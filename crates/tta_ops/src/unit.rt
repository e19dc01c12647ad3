//! What a unit of operations is.

ghost use Rattle.std.specs.Prelude.{◌≡◌, ◌<◌, ◌≤◌, ◌↔◌, ◌^◌, ℕ, List, IsTrue, sum_by};
ghost use Rattle.tta_ops.specs.Unit.{AreDifferent};

/// A unit of operations, which are counted from 0.
///
/// Past its last operation a unit may answer anything.
pub trait OpUnit: Drop {
    /// How many operations it has.
    ghost unit_size: { Self → ℕ };

    /// What an operation is called.
    ghost unit_name: { Self → ℕ → List ℕ };

    /// How many words an operation takes.
    ghost unit_arity: { Self → ℕ → ℕ };

    /// What an operation makes of two words.
    ghost unit_meaning: { Self → ℕ → ℕ → ℕ → ℕ };

    /// How many operations it has.
    fn count(&self) -> usize
        ensures value { result ≡ unit_size self.now }
        ensures different { AreDifferent (unit_size self.now) (unit_name self.now) };

    /// What the operation with index i is called.
    fn name(&self, i: usize) -> &str
        ensures { result.now ≡ unit_name self.now i };

    /// How many words the operation takes: 1, which is `b`, or 2.
    fn arity(&self, i: usize) -> u8
        ensures value { result ≡ unit_arity self.now i }
        ensures some { i < unit_size self.now → 0 < unit_arity self.now i }
        ensures two { i < unit_size self.now → unit_arity self.now i < 3 };

    /// What the operation makes of the words a and b. One that takes 1 word ignores a.
    fn apply(&self, i: usize, a: u32, b: u32) -> u32
        ensures value { result ≡ unit_meaning self.now i a b }
        ensures word { unit_meaning self.now i a b < 2 ^ 32 }
        ensures ignores { i < unit_size self.now → unit_arity self.now i ≡ 1
            → unit_meaning self.now i a b ≡ unit_meaning self.now i 0 b };
}

impl OpUnit for Box<dyn OpUnit> {
    ghost unit_size = { λ b. (OpUnit-box b).unit_size b.value };

    ghost unit_name = { λ b. (OpUnit-box b).unit_name b.value };

    ghost unit_arity = { λ b. (OpUnit-box b).unit_arity b.value };

    ghost unit_meaning = { λ b. (OpUnit-box b).unit_meaning b.value };

    fn count(&self) -> usize {
        (**self).count()
    }

    fn name(&self, i: usize) -> &str {
        (**self).name(i)
    }

    fn arity(&self, i: usize) -> u8 {
        (**self).arity(i)
    }

    fn apply(&self, i: usize, a: u32, b: u32) -> u32 {
        (**self).apply(i, a, b)
    }
}

/// Whether the units offer at most so many operations.
#[tactic(auto, using(crate::proofs::Walk::size_of_rest))]
pub fn offer_at_most<U: OpUnit>(units: &[U], most: usize) -> bool
    ensures { IsTrue result ↔ (sum_by U.unit_size units.now ≤ most) }
{
    let mut left = most;
    for unit in units {
        let count = unit.count();
        if count > left {
            return false;
        }
        left -= count;
    }
    true
}
