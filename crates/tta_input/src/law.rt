//! What the reader takes, said of the bytes alone.

ghost use Rattle.std.specs.Prelude.{◌≡◌, ◌↔◌, ℕ, List, Ok};
ghost use Rattle.tta_input.specs.Grammar.{IsInput};
ghost use Rattle.tta_input.specs.Input.{input_of};

/// A file gives a memory exactly where its bytes are lines of eight digits that fit the space, and
/// then it is the memory that they fill.
pub fn lines_are_words()
    ensures { (space : ℕ) (bytes memory : List ℕ)
        → (input_of space bytes ≡ Ok memory) ↔ IsInput space bytes memory }
{}
