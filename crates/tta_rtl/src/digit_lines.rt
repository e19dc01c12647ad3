//! What the variables of a digit of a division take.

ghost use Rattle.std.specs.Prelude.{◌≡◌, ◌<◌, ◌+◌, ◌-◌, ◌*◌, ◌++◌, codes, OnOk};
ghost use Rattle.tta_verilog.specs.Expressions as e;
ghost use Rattle.tta_rtl.specs.Cited.{Signal, brought_word};
ghost use Rattle.tta_rtl.specs.Dividing as d;
ghost use Rattle.tta_rtl.specs.Variables as v;

use std::alloc::AllocError;
use tta_verilog::{push_constant, push_number, push_part_select, push_text};

/// Puts the variable of a wire.
#[tactic(auto, unfolding(crate::specs::Variables::variable))]
pub fn push_variable(out: &mut Vec<u8>, number: u32) -> Result<(), AllocError>
    ensures { OnOk result (out.new.items ≡ out.old.items ++ v.variable number) }
{
    push_text(out, b"t_")?;
    push_number(out, u64::from(number))
}

/// Puts the rest after so many digits.
fn push_rest(out: &mut Vec<u8>, done: u32) -> Result<(), AllocError>
    requires { done < 32 }
    ensures { OnOk result (out.new.items
        ≡ out.old.items ++ e.expression v.port_names (d.rest_after done)) }
{
    if done == 0 {
        push_constant(out, 32, 0)
    } else {
        push_variable(out, (5 * done).saturating_sub(2))
    }
}

/// Puts the digits after so many.
fn push_digits(out: &mut Vec<u8>, done: u32) -> Result<(), AllocError>
    requires { done < 32 }
    ensures { OnOk result (out.new.items ≡ out.old.items ++ v.port_name (d.digits_after done)) }
{
    if done == 0 {
        push_text(out, b"a")
    } else {
        push_variable(out, (5 * done).saturating_sub(1))
    }
}

/// Puts a part of the digits after so many.
#[tactic(auto, unfolding(tta_verilog::specs::Expressions::part))]
fn push_part(out: &mut Vec<u8>, done: u32, low: u32, width: u32) -> Result<(), AllocError>
    requires { done < 32 }
    ensures { OnOk result (out.new.items ≡ out.old.items
        ++ e.part (v.port_name (d.digits_after done)) low width) }
{
    push_digits(out, done)?;
    push_part_select(out, low, width)
}

/// Puts the rest joined with the next digit of the dividend.
#[tactic(auto, unfolding(tta_verilog::specs::Expressions::joined))]
fn push_joined(out: &mut Vec<u8>, done: u32) -> Result<(), AllocError>
    requires { done < 32 }
    ensures { OnOk result (out.new.items ≡ out.old.items
        ++ e.joined (e.expression v.port_names (d.rest_after done))
        (e.part (v.port_name (d.digits_after done)) 31 1)) }
{
    push_text(out, b"{")?;
    push_rest(out, done)?;
    push_text(out, b",")?;
    push_part(out, done, 31, 1)?;
    push_text(out, b"}")
}

/// Puts the rest with the next digit; before the first there is none.
fn push_brought_word(out: &mut Vec<u8>, done: u32) -> Result<(), AllocError>
    requires { done < 32 }
    ensures { OnOk result (out.new.items ≡ out.old.items ++ e.expression v.port_names
        (brought_word done (d.rest_after done) (Signal (d.digits_after done)))) }
{
    if done == 0 {
        push_part(out, done, 31, 1)
    } else {
        push_joined(out, done)
    }
}

/// Puts a variable with so many digits of 0 above it.
#[tactic(auto, unfolding(tta_verilog::specs::Expressions::joined))]
fn push_with_zeros(out: &mut Vec<u8>, number: u32, zeros: u32) -> Result<(), AllocError>
    ensures { OnOk result (out.new.items ≡ out.old.items
        ++ e.joined (e.constant zeros 0) (v.variable number)) }
{
    push_text(out, b"{")?;
    push_constant(out, zeros, 0)?;
    push_text(out, b",")?;
    push_variable(out, number)?;
    push_text(out, b"}")
}

/// Puts the divisor with a digit of 0 above it.
#[tactic(auto, unfolding(tta_verilog::specs::Expressions::joined))]
fn push_divisor(out: &mut Vec<u8>) -> Result<(), AllocError>
    ensures { OnOk result (out.new.items ≡ out.old.items
        ++ e.joined (e.constant 1 0) (codes "b")) }
{
    push_text(out, b"{")?;
    push_constant(out, 1, 0)?;
    push_text(out, b",b}")
}

/// Puts whether the rest with the digit is less than the divisor.
#[tactic(auto, unfolding(tta_verilog::specs::Expressions::between))]
fn push_less_word(out: &mut Vec<u8>, done: u32) -> Result<(), AllocError>
    requires { done < 32 }
    ensures { OnOk result (out.new.items ≡ out.old.items ++ e.between (codes "<")
        (e.joined (e.constant (32 - done) 0) (v.variable (5 * done)))
        (e.joined (e.constant 1 0) (codes "b"))) }
{
    push_text(out, b"(")?;
    push_with_zeros(out, 5 * done, 32 - done)?;
    push_text(out, b")<(")?;
    push_divisor(out)?;
    push_text(out, b")")
}

/// Puts what the divisor leaves of it, in as many bits as it has.
#[tactic(auto, unfolding(tta_verilog::specs::Expressions::between, tta_verilog::specs::Expressions::part))]
fn push_left_word(out: &mut Vec<u8>, done: u32) -> Result<(), AllocError>
    requires { done < 32 }
    ensures { OnOk result (out.new.items ≡ out.old.items ++ e.between (codes "-")
        (v.variable (5 * done)) (e.part (codes "b") 0 (done + 1))) }
{
    push_text(out, b"(")?;
    push_variable(out, 5 * done)?;
    push_text(out, b")-(b")?;
    push_part_select(out, 0, done + 1)?;
    push_text(out, b")")
}

/// Puts the new rest: the rest with the digit where that is less than the divisor, and else what is left.
#[tactic(auto, unfolding(tta_verilog::specs::Expressions::choice))]
fn push_rest_word(out: &mut Vec<u8>, done: u32) -> Result<(), AllocError>
    requires { done < 32 }
    ensures { OnOk result (out.new.items ≡ out.old.items ++ e.choice (v.variable (5 * done + 1))
        (v.variable (5 * done)) (v.variable (5 * done + 2))) }
{
    push_text(out, b"(")?;
    push_variable(out, 5 * done + 1)?;
    push_text(out, b")?(")?;
    push_variable(out, 5 * done)?;
    push_text(out, b"):")?;
    push_variable(out, 5 * done + 2)
}

/// Puts that a variable is not set.
#[tactic(auto, unfolding(tta_verilog::specs::Expressions::negated))]
fn push_turned(out: &mut Vec<u8>, number: u32) -> Result<(), AllocError>
    ensures { OnOk result (out.new.items ≡ out.old.items ++ e.negated (v.variable number)) }
{
    push_text(out, b"!(")?;
    push_variable(out, number)?;
    push_text(out, b")")
}

/// Puts the new digits.
#[tactic(auto, unfolding(tta_verilog::specs::Expressions::joined))]
fn push_digits_word(out: &mut Vec<u8>, done: u32) -> Result<(), AllocError>
    requires { done < 32 }
    ensures { OnOk result (out.new.items ≡ out.old.items
        ++ e.joined (e.part (v.port_name (d.digits_after done)) 0 31)
        (e.negated (v.variable (5 * done + 1)))) }
{
    push_text(out, b"{")?;
    push_part(out, done, 0, 31)?;
    push_text(out, b",")?;
    push_turned(out, 5 * done + 1)?;
    push_text(out, b"}")
}

/// Puts that a variable takes what comes behind.
fn start_taken(out: &mut Vec<u8>, number: u32) -> Result<(), AllocError>
    ensures { OnOk result (out.new.items ≡ out.old.items ++ (v.variable number ++ codes " = ")) }
{
    push_variable(out, number)?;
    push_text(out, b" = ")
}

/// Puts what takes the rest with the next digit.
#[tactic(auto, unfolding(crate::specs::Variables::assignment))]
pub fn push_brought(out: &mut Vec<u8>, done: u32) -> Result<(), AllocError>
    requires { done < 32 }
    ensures { OnOk result (out.new.items ≡ out.old.items
        ++ v.assignment (v.variable (5 * done)) (e.expression v.port_names
        (brought_word done (d.rest_after done) (Signal (d.digits_after done))))) }
{
    start_taken(out, 5 * done)?;
    push_brought_word(out, done)?;
    push_text(out, b";\n")
}

/// Puts what takes whether that is less than the divisor.
#[tactic(auto, unfolding(crate::specs::Variables::assignment))]
pub fn push_less(out: &mut Vec<u8>, done: u32) -> Result<(), AllocError>
    requires { done < 32 }
    ensures { OnOk result (out.new.items ≡ out.old.items
        ++ v.assignment (v.variable (5 * done + 1)) (e.between (codes "<")
        (e.joined (e.constant (32 - done) 0) (v.variable (5 * done)))
        (e.joined (e.constant 1 0) (codes "b")))) }
{
    start_taken(out, 5 * done + 1)?;
    push_less_word(out, done)?;
    push_text(out, b";\n")
}

/// Puts what takes what the divisor leaves.
#[tactic(auto, unfolding(crate::specs::Variables::assignment))]
pub fn push_left(out: &mut Vec<u8>, done: u32) -> Result<(), AllocError>
    requires { done < 32 }
    ensures { OnOk result (out.new.items ≡ out.old.items
        ++ v.assignment (v.variable (5 * done + 2)) (e.between (codes "-")
        (v.variable (5 * done)) (e.part (codes "b") 0 (done + 1)))) }
{
    start_taken(out, 5 * done + 2)?;
    push_left_word(out, done)?;
    push_text(out, b";\n")
}

/// Puts what takes the new rest.
#[tactic(auto, unfolding(crate::specs::Variables::assignment))]
pub fn push_rest_taken(out: &mut Vec<u8>, done: u32) -> Result<(), AllocError>
    requires { done < 32 }
    ensures { OnOk result (out.new.items ≡ out.old.items
        ++ v.assignment (v.variable (5 * done + 3)) (e.choice (v.variable (5 * done + 1))
        (v.variable (5 * done)) (v.variable (5 * done + 2)))) }
{
    start_taken(out, 5 * done + 3)?;
    push_rest_word(out, done)?;
    push_text(out, b";\n")
}

/// Puts what takes the new digits.
#[tactic(auto, unfolding(crate::specs::Variables::assignment))]
pub fn push_next_digits(out: &mut Vec<u8>, done: u32) -> Result<(), AllocError>
    requires { done < 32 }
    ensures { OnOk result (out.new.items ≡ out.old.items
        ++ v.assignment (v.variable (5 * done + 4))
        (e.joined (e.part (v.port_name (d.digits_after done)) 0 31)
        (e.negated (v.variable (5 * done + 1))))) }
{
    start_taken(out, 5 * done + 4)?;
    push_digits_word(out, done)?;
    push_text(out, b";\n")
}
