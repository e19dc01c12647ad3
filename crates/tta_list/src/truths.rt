//! A choice of two truths.

ghost use Rattle.std.specs.Prelude.{◌≡◌, ◌||◌};

/// Whether one of two things holds. It is a function of its own, since a loop that ends in a choice is
/// hard to prove.
pub fn either(one: bool, other: bool) -> bool
    ensures { result ≡ (one || other) }
{
    one || other
}
