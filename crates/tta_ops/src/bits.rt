//! The units that work on the bits of words.

ghost use Rattle.std.specs.Prelude.{◌≡◌, ◌<◌};
ghost use Rattle.tta_ops.specs.Bits.{shifted_with_sign};

use crate::unit::OpUnit;

/// `and`, `or`, `xor` and `not`, bit by bit.
#[derive(Clone, Copy, Debug)]
pub struct Logic;

impl OpUnit for Logic {
    ghost use Rattle.tta_ops.specs.Bits.{logic};

    ghost unit_size = { λ _. 4 };

    ghost unit_name = { λ _ i. (logic i).name };

    ghost unit_arity = { λ _ i. (logic i).arity };

    ghost unit_meaning = { λ _ i a b. (logic i).value a b };

    fn count(&self) -> usize {
        4
    }

    fn name(&self, i: usize) -> &str {
        match i {
            0 => "and",
            1 => "or",
            2 => "xor",
            3 => "not",
            _ => "",
        }
    }

    fn arity(&self, i: usize) -> u8 {
        match i {
            0..=2 => 2,
            _ => 1,
        }
    }

    fn apply(&self, i: usize, a: u32, b: u32) -> u32 {
        match i {
            0 => a & b,
            1 => a | b,
            2 => a ^ b,
            3 => !b,
            _ => 0,
        }
    }
}

/// `shl`, `shr` and `shru`, which shift a by b modulo 32 bits. `shr` copies the top bit in, the
/// others bring zeros in.
#[derive(Clone, Copy, Debug)]
pub struct Shift;

impl OpUnit for Shift {
    ghost use Rattle.tta_ops.specs.Bits.{shift};

    ghost unit_size = { λ _. 3 };

    ghost unit_name = { λ _ i. (shift i).name };

    ghost unit_arity = { λ _ i. (shift i).arity };

    ghost unit_meaning = { λ _ i a b. (shift i).value a b };

    fn count(&self) -> usize {
        3
    }

    fn name(&self, i: usize) -> &str {
        match i {
            0 => "shl",
            1 => "shr",
            2 => "shru",
            _ => "",
        }
    }

    fn arity(&self, i: usize) -> u8 {
        match i {
            0..=2 => 2,
            _ => 1,
        }
    }

    fn apply(&self, i: usize, a: u32, b: u32) -> u32 {
        match i {
            0 => a.wrapping_shl(b),
            1 => shift_right_with_sign(a, b % 32),
            2 => a.wrapping_shr(b),
            _ => 0,
        }
    }
}

/// The word shifted right by so many bits, with its top bit in each bit that comes free.
fn shift_right_with_sign(a: u32, n: u32) -> u32
    requires { n < 32 }
    ensures { result ≡ shifted_with_sign a n }
{
    if a < 1 << 31 {
        a >> n
    } else {
        // The top bit of the inverted word is clear, so zeros come in there.
        !(!a >> n)
    }
}
