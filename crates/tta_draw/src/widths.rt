//! How wide texts are.

ghost use Rattle.std.specs.Prelude.{◌≡◌, ◌≤◌};
ghost use Rattle.tta_draw.specs.Widths.{text_width};

/// How wide a text of so many letters is, with room at both sides.
pub fn text_width(letters: usize) -> u64
    ensures all { result ≡ text_width letters }
    ensures few { result ≤ 7008 }
{
    7 * letters.min(1000) as u64 + 8
}
