//! The names of the signals of a divider.

ghost use Rattle.std.specs.Prelude.{◌≡◌, ◌++◌, OnOk};
ghost use Rattle.tta_verilog.specs.Expressions as e;
ghost use Rattle.tta_divider.specs.Divider as d;
ghost use Rattle.tta_divider_rtl.specs.Texts as t;
ghost use Rattle.tta_divider_rtl.specs.Pieces as p;

use std::alloc::AllocError;
use tta_verilog::{push_constant, push_number, push_text};

/// Puts what is called by a number, too.
#[tactic(auto, unfolding(crate::specs::Texts::numbered))]
pub fn push_numbered(out: &mut Vec<u8>, what: &[u8], n: u32) -> Result<(), AllocError>
    ensures { OnOk result (out.new.items ≡ out.old.items ++ t.numbered what.now n) }
{
    push_text(out, what)?;
    push_number(out, u64::from(n))
}

/// Puts the name of a wire of a digit.
#[tactic(auto, unfolding(crate::specs::Texts::digit_name))]
pub fn push_digit(out: &mut Vec<u8>, stage: u32, number: u32) -> Result<(), AllocError>
    ensures { OnOk result (out.new.items ≡ out.old.items ++ t.digit_name stage number) }
{
    push_text(out, b"digit_")?;
    push_number(out, u64::from(stage))?;
    push_text(out, b"_")?;
    push_number(out, u64::from(number))
}

/// Puts the rest that a stage begins with.
fn push_rest_before(out: &mut Vec<u8>, stage: u32) -> Result<(), AllocError>
    ensures { OnOk result (out.new.items ≡ out.old.items
        ++ e.expression t.divider_names (d.rest_before stage)) }
{
    if stage == 0 {
        push_constant(out, 32, 0)
    } else {
        push_numbered(out, b"rest_", stage)
    }
}

/// Puts the digits that a stage begins with.
fn push_digits_before(out: &mut Vec<u8>, stage: u32) -> Result<(), AllocError>
    ensures { OnOk result (out.new.items ≡ out.old.items ++ t.part_name (d.digits_before stage)) }
{
    if stage == 0 {
        push_text(out, b"a")
    } else {
        push_numbered(out, b"digits_", stage)
    }
}

/// Puts the divisor that a stage begins with.
pub fn push_divisor(out: &mut Vec<u8>, stage: u32) -> Result<(), AllocError>
    ensures { OnOk result (out.new.items ≡ out.old.items ++ t.part_name (d.divisor_before stage)) }
{
    if stage == 0 {
        push_text(out, b"b")
    } else {
        push_numbered(out, b"divisor_", stage)
    }
}

/// Puts the rest before the wires that a stage has from a number on.
pub fn push_rest(out: &mut Vec<u8>, stage: u32, number: u32) -> Result<(), AllocError>
    ensures { OnOk result (out.new.items ≡ out.old.items
        ++ e.expression t.divider_names (p.rest_at stage number)) }
{
    if number == 0 {
        push_rest_before(out, stage)
    } else {
        push_digit(out, stage, number.saturating_sub(2))
    }
}

/// Puts the digits before them.
pub fn push_digits(out: &mut Vec<u8>, stage: u32, number: u32) -> Result<(), AllocError>
    ensures { OnOk result (out.new.items ≡ out.old.items
        ++ t.part_name (p.digits_at stage number)) }
{
    if number == 0 {
        push_digits_before(out, stage)
    } else {
        push_digit(out, stage, number.saturating_sub(1))
    }
}
