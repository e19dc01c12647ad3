//! The lines of a division within a function: its wires are variables, five for each digit.

ghost use Rattle.std.specs.Prelude.{◌≡◌, ◌≤◌, ◌<◌, ◌+◌, ◌++◌, true, false, OnOk};
ghost use Rattle.tta_rtl.specs.Cited.{divide_circuit};
ghost use Rattle.tta_rtl.specs.Dividing as d;
ghost use Rattle.tta_rtl.specs.Variables as v;

use crate::digit_lines::{
    push_brought, push_left, push_less, push_next_digits, push_rest_taken, push_variable,
};
use std::alloc::AllocError;
use tta_verilog::{push_range, push_text};

/// Puts how a variable is declared.
#[tactic(auto, unfolding(crate::specs::Variables::declaration))]
fn push_declared(out: &mut Vec<u8>, number: u32, width: u32) -> Result<(), AllocError>
    ensures { OnOk result (out.new.items
        ≡ out.old.items ++ v.declaration (v.variable number) width) }
{
    push_text(out, b"reg ")?;
    push_range(out, width)?;
    push_variable(out, number)?;
    push_text(out, b";\n")
}

/// Puts how the variables of the digit after so many are declared.
fn push_all_declared(out: &mut Vec<u8>, done: u32) -> Result<(), AllocError>
    requires { done < 32 }
    ensures { OnOk result (out.new.items ≡ out.old.items ++ v.lines true (d.wires_at done)) }
{
    push_declared(out, 5 * done, done + 1)?;
    push_declared(out, 5 * done + 1, 1)?;
    push_declared(out, 5 * done + 2, done + 1)?;
    push_declared(out, 5 * done + 3, done + 1)?;
    push_declared(out, 5 * done + 4, 32)
}

/// Puts what the variables of that digit take.
fn push_all_taken(out: &mut Vec<u8>, done: u32) -> Result<(), AllocError>
    requires { done < 32 }
    ensures { OnOk result (out.new.items ≡ out.old.items ++ v.lines false (d.wires_at done)) }
{
    push_brought(out, done)?;
    push_less(out, done)?;
    push_left(out, done)?;
    push_rest_taken(out, done)?;
    push_next_digits(out, done)
}

/// Puts the lines of the digit after so many: where its variables are declared, or what they take.
fn push_digit(out: &mut Vec<u8>, declares: bool, done: u32) -> Result<(), AllocError>
    requires { done < 32 }
    ensures { OnOk result (out.new.items ≡ out.old.items ++ v.lines declares (d.wires_at done)) }
{
    if declares {
        push_all_declared(out, done)
    } else {
        push_all_taken(out, done)
    }
}

/// Puts those of so many digits more.
fn push_digits(out: &mut Vec<u8>, declares: bool, done: u32, count: u32) -> Result<(), AllocError>
    requires { done + count ≤ 32 }
    ensures { OnOk result (out.new.items
        ≡ out.old.items ++ v.lines declares (d.wires_from done count)) }
{
    if count == 0 {
        return Ok(());
    }
    push_digit(out, declares, done)?;
    push_digits(out, declares, done + 1, count - 1)
}

/// Puts the lines of a division before its word.
pub fn push_division(out: &mut Vec<u8>) -> Result<(), AllocError>
    ensures { OnOk result (out.new.items ≡ out.old.items ++ v.before_word (divide_circuit 0)) }
{
    push_digits(out, true, 0, 32)?;
    push_text(out, b"begin\n")?;
    push_digits(out, false, 0, 32)
}
