//! The units of whole-number arithmetic.

use crate::unit::OpUnit;

/// `add`, `sub`, `mul`, `mulhu` and `neg`: sums and products modulo 2^32, and the upper half of
/// an unsigned product.
#[derive(Clone, Copy, Debug)]
pub struct Arith;

impl OpUnit for Arith {
    ghost use Rattle.tta_ops.specs.Arithmetic.{arith};

    ghost unit_size = { λ _. 5 };

    ghost unit_name = { λ _ i. (arith i).name };

    ghost unit_arity = { λ _ i. (arith i).arity };

    ghost unit_meaning = { λ _ i a b. (arith i).value a b };

    fn count(&self) -> usize {
        5
    }

    fn name(&self, i: usize) -> &str {
        match i {
            0 => "add",
            1 => "sub",
            2 => "mul",
            3 => "mulhu",
            4 => "neg",
            _ => "",
        }
    }

    fn arity(&self, i: usize) -> u8 {
        match i {
            0..=3 => 2,
            _ => 1,
        }
    }

    fn apply(&self, i: usize, a: u32, b: u32) -> u32 {
        match i {
            0 => a.wrapping_add(b),
            1 => a.wrapping_sub(b),
            2 => a.wrapping_mul(b),
            3 => ((a as u64 * b as u64) >> 32) as u32,
            4 => 0u32.wrapping_sub(b),
            _ => 0,
        }
    }
}

/// `divu` and `remu` of unsigned words: a quotient by 0 is 2^32 - 1, a remainder by 0 is the
/// dividend.
#[derive(Clone, Copy, Debug)]
pub struct Divide;

impl OpUnit for Divide {
    ghost use Rattle.tta_ops.specs.Arithmetic.{divide};

    ghost unit_size = { λ _. 2 };

    ghost unit_name = { λ _ i. (divide i).name };

    ghost unit_arity = { λ _ i. (divide i).arity };

    ghost unit_meaning = { λ _ i a b. (divide i).value a b };

    fn count(&self) -> usize {
        2
    }

    fn name(&self, i: usize) -> &str {
        match i {
            0 => "divu",
            1 => "remu",
            _ => "",
        }
    }

    fn arity(&self, i: usize) -> u8 {
        match i {
            0 | 1 => 2,
            _ => 1,
        }
    }

    fn apply(&self, i: usize, a: u32, b: u32) -> u32 {
        match i {
            0 => a.checked_div(b).unwrap_or(u32::MAX),
            1 => a.checked_rem(b).unwrap_or(a),
            _ => 0,
        }
    }
}
