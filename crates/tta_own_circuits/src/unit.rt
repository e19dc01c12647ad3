//! What a unit is that hands in circuits.

ghost use Rattle.std.specs.Prelude.{◌<◌, ℕ, Option, IfSome};
ghost use Rattle.tta_own_circuits.specs.Texts.{AreAlike};

use tta_ops::OpUnit;

/// The text of a circuit: the lines before its word, and the word.
#[derive(Clone, Copy)]
pub struct CircuitText {
    pub before: &'static [u8],
    pub word: &'static [u8],
}

/// A unit that may hand in the circuits of its operations, which are counted from 0.
pub trait CircuitUnit: OpUnit {
    ghost use Rattle.tta_own_circuits.specs.Cited.{Makes, Worked};

    /// The circuit of an operation, if the unit hands it in.
    ghost unit_circuit: { Self → ℕ → Option Worked };

    /// Nothing is done: each circuit that is handed in makes its operation.
    fn make(&self)
        ensures { (i : ℕ) → i < Self.unit_size self.now
            → IfSome (unit_circuit self.now i) (λ w. Makes w (Self.unit_meaning self.now i)) };

    /// The text of the circuit of an operation, if the unit hands it in.
    fn circuit(&self, i: usize) -> Option<CircuitText>
        ensures { AreAlike result (unit_circuit self.now i) };
}
