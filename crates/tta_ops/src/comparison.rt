//! The unit that compares words.

ghost use Rattle.std.specs.Prelude.{◌≡◌};
ghost use Rattle.tta_ops.specs.Comparison.{truth, lifted};

use crate::unit::OpUnit;

/// `eq`, `ne`, `lt`, `gt`, `ltu` and `gtu`, which give 1 where the comparison holds, and else 0.
/// `lt` and `gt` take words as signed numbers.
#[derive(Clone, Copy, Debug)]
pub struct Compare;

impl OpUnit for Compare {
    ghost use Rattle.tta_ops.specs.Comparison.{compare};

    ghost unit_size = { λ _. 6 };

    ghost unit_name = { λ _ i. (compare i).name };

    ghost unit_arity = { λ _ i. (compare i).arity };

    ghost unit_meaning = { λ _ i a b. (compare i).value a b };

    fn count(&self) -> usize {
        6
    }

    fn name(&self, i: usize) -> &str {
        match i {
            0 => "eq",
            1 => "ne",
            2 => "lt",
            3 => "gt",
            4 => "ltu",
            5 => "gtu",
            _ => "",
        }
    }

    fn arity(&self, i: usize) -> u8 {
        match i {
            0..=5 => 2,
            _ => 1,
        }
    }

    fn apply(&self, i: usize, a: u32, b: u32) -> u32 {
        match i {
            0 => truth(a == b),
            1 => truth(a != b),
            2 => truth(lifted(a) < lifted(b)),
            3 => truth(lifted(b) < lifted(a)),
            4 => truth(a < b),
            5 => truth(b < a),
            _ => 0,
        }
    }
}

/// 1 where a comparison holds, and else 0.
fn truth(holds: bool) -> u32
    ensures { result ≡ truth holds }
{
    if holds { 1 } else { 0 }
}

/// The signed number that a word stands for, plus 2^31: it keeps the order of signed numbers.
fn lifted(a: u32) -> u32
    ensures { result ≡ lifted a }
{
    a.wrapping_add(1 << 31)
}
