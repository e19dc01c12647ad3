//! The words of the wires of a digit.

ghost use Rattle.std.specs.Prelude.{◌≡◌, ◌≤◌, ◌+◌, ◌++◌, OnOk};
ghost use Rattle.tta_verilog.specs.Expressions as e;
ghost use Rattle.tta_divider.specs.Divider as d;
ghost use Rattle.tta_divider_rtl.specs.Texts as t;
ghost use Rattle.tta_divider_rtl.specs.Pieces as p;

use crate::names::{push_digit, push_digits, push_divisor, push_rest};
use std::alloc::AllocError;
use tta_verilog::{push_constant, push_part_select, push_text};

/// Puts a part of a wire of a digit.
#[tactic(auto, unfolding(tta_verilog::specs::Expressions::part))]
fn push_digit_part(
    out: &mut Vec<u8>,
    stage: u32,
    number: u32,
    low: u8,
    width: u8,
) -> Result<(), AllocError>
    ensures { OnOk result (out.new.items ≡ out.old.items
        ++ e.part (t.digit_name stage number) low width) }
{
    push_digit(out, stage, number)?;
    push_part_select(out, u32::from(low), u32::from(width))
}

/// Puts a part of the digits before the wires that a stage has from a number on.
#[tactic(auto, unfolding(tta_verilog::specs::Expressions::part))]
fn push_digits_part(
    out: &mut Vec<u8>,
    stage: u32,
    number: u32,
    low: u8,
    width: u8,
) -> Result<(), AllocError>
    ensures { OnOk result (out.new.items ≡ out.old.items
        ++ e.part (t.part_name (p.digits_at stage number)) low width) }
{
    push_digits(out, stage, number)?;
    push_part_select(out, u32::from(low), u32::from(width))
}

/// Puts the rest with the next digit of the dividend.
#[tactic(auto, unfolding(tta_verilog::specs::Expressions::joined))]
pub fn push_brought(out: &mut Vec<u8>, stage: u32, number: u32) -> Result<(), AllocError>
    ensures { OnOk result (out.new.items ≡ out.old.items
        ++ e.joined (e.expression t.divider_names (p.rest_at stage number))
        (e.part (t.part_name (p.digits_at stage number)) 31 1)) }
{
    push_text(out, b"{")?;
    push_rest(out, stage, number)?;
    push_text(out, b",")?;
    push_digits_part(out, stage, number, 31, 1)?;
    push_text(out, b"}")
}

/// Puts the divisor with a digit of 0 above it.
#[tactic(auto, unfolding(tta_verilog::specs::Expressions::joined))]
fn push_with_zero(out: &mut Vec<u8>, stage: u32) -> Result<(), AllocError>
    ensures { OnOk result (out.new.items ≡ out.old.items
        ++ e.joined (e.constant 1 0) (t.part_name (d.divisor_before stage))) }
{
    push_text(out, b"{")?;
    push_constant(out, 1, 0)?;
    push_text(out, b",")?;
    push_divisor(out, stage)?;
    push_text(out, b"}")
}

/// Puts an operation of a wire and the divisor.
#[tactic(auto, unfolding(tta_verilog::specs::Expressions::between))]
pub fn push_against(
    out: &mut Vec<u8>,
    sign: &[u8],
    stage: u32,
    number: u32,
) -> Result<(), AllocError>
    ensures { OnOk result (out.new.items ≡ out.old.items ++ e.between sign.now
        (t.digit_name stage number)
        (e.joined (e.constant 1 0) (t.part_name (d.divisor_before stage)))) }
{
    push_text(out, b"(")?;
    push_digit(out, stage, number)?;
    push_text(out, b")")?;
    push_text(out, sign)?;
    push_text(out, b"(")?;
    push_with_zero(out, stage)?;
    push_text(out, b")")
}

/// Puts the new rest: what was brought where it is less than the divisor, and else what is left of it.
#[tactic(auto, unfolding(tta_verilog::specs::Expressions::choice))]
pub fn push_left(out: &mut Vec<u8>, stage: u32, number: u32) -> Result<(), AllocError>
    requires { number ≤ 160 }
    ensures { OnOk result (out.new.items ≡ out.old.items
        ++ e.choice (t.digit_name stage (number + 1)) (e.part (t.digit_name stage number) 0 32)
        (e.part (t.digit_name stage (number + 2)) 0 32)) }
{
    push_text(out, b"(")?;
    push_digit(out, stage, number + 1)?;
    push_text(out, b")?(")?;
    push_digit_part(out, stage, number, 0, 32)?;
    push_text(out, b"):")?;
    push_digit_part(out, stage, number + 2, 0, 32)
}

/// Puts that a wire is not set.
#[tactic(auto, unfolding(tta_verilog::specs::Expressions::negated))]
fn push_turned(out: &mut Vec<u8>, stage: u32, number: u32) -> Result<(), AllocError>
    ensures { OnOk result (out.new.items ≡ out.old.items ++ e.negated (t.digit_name stage number)) }
{
    push_text(out, b"!(")?;
    push_digit(out, stage, number)?;
    push_text(out, b")")
}

/// Puts the new digits.
#[tactic(auto, unfolding(tta_verilog::specs::Expressions::joined))]
pub fn push_next_digits(out: &mut Vec<u8>, stage: u32, number: u32) -> Result<(), AllocError>
    requires { number ≤ 160 }
    ensures { OnOk result (out.new.items ≡ out.old.items
        ++ e.joined (e.part (t.part_name (p.digits_at stage number)) 0 31)
        (e.negated (t.digit_name stage (number + 1)))) }
{
    push_text(out, b"{")?;
    push_digits_part(out, stage, number, 0, 31)?;
    push_text(out, b",")?;
    push_turned(out, stage, number + 1)?;
    push_text(out, b"}")
}
