//! The wires of the digits of stages.

ghost use Rattle.std.specs.Prelude.{◌≡◌, ◌≤◌, ◌+◌, ◌*◌, ◌++◌, OnOk};
ghost use Rattle.std.specs.List.{flat_map};
ghost use Rattle.tta_circuit.specs.Circuit.{Signal};
ghost use Rattle.tta_verilog.specs.Expressions as e;
ghost use Rattle.tta_verilog.specs.Circuits as v;
ghost use Rattle.tta_op_circuits.specs.Dividing as o;
ghost use Rattle.tta_divider.specs.Divider as d;
ghost use Rattle.tta_divider_rtl.specs.Texts as t;
ghost use Rattle.tta_divider_rtl.specs.Pieces as p;

use crate::names::push_digit;
use crate::words::{push_against, push_brought, push_left, push_next_digits};
use std::alloc::AllocError;
use tta_verilog::{push_range, push_text};

/// Puts how the line of a wire of a digit begins.
#[tactic(auto, unfolding(crate::specs::Pieces::wire_start))]
fn start_wire(out: &mut Vec<u8>, stage: u32, number: u32, width: u32) -> Result<(), AllocError>
    ensures { OnOk result (out.new.items ≡ out.old.items
        ++ p.wire_start (t.digit_name stage number) width) }
{
    push_text(out, b"wire ")?;
    push_range(out, width)?;
    push_digit(out, stage, number)?;
    push_text(out, b" = ")
}

/// Puts the wire of the rest with a digit more.
#[tactic(auto, unfolding(crate::specs::Pieces::wire_start, tta_verilog::specs::Circuits::wire_line))]
fn push_brought_wire(out: &mut Vec<u8>, stage: u32, number: u32) -> Result<(), AllocError>
    ensures { OnOk result (out.new.items ≡ out.old.items
        ++ v.wire_line (t.digit_name stage number) 33
        (e.joined (e.expression t.divider_names (p.rest_at stage number))
        (e.part (t.part_name (p.digits_at stage number)) 31 1))) }
{
    start_wire(out, stage, number, 33)?;
    push_brought(out, stage, number)?;
    push_text(out, b";\n")
}

/// Puts a wire, of so many after another one, with an operation of that one and the divisor.
#[tactic(auto, unfolding(crate::specs::Pieces::wire_start, tta_verilog::specs::Circuits::wire_line))]
fn push_against_wire(
    out: &mut Vec<u8>,
    stage: u32,
    number: u32,
    further: u32,
    sign: &[u8],
    width: u32,
) -> Result<(), AllocError>
    requires { number ≤ 160 × further ≤ 4 }
    ensures { OnOk result (out.new.items ≡ out.old.items
        ++ v.wire_line (t.digit_name stage (number + further)) width
        (e.between sign.now (t.digit_name stage number)
        (e.joined (e.constant 1 0) (t.part_name (d.divisor_before stage))))) }
{
    start_wire(out, stage, number + further, width)?;
    push_against(out, sign, stage, number)?;
    push_text(out, b";\n")
}

/// Puts the wire of the new rest.
#[tactic(auto, unfolding(crate::specs::Pieces::wire_start, tta_verilog::specs::Circuits::wire_line))]
fn push_left_wire(out: &mut Vec<u8>, stage: u32, number: u32) -> Result<(), AllocError>
    requires { number ≤ 160 }
    ensures { OnOk result (out.new.items ≡ out.old.items
        ++ v.wire_line (t.digit_name stage (number + 3)) 32
        (e.choice (t.digit_name stage (number + 1)) (e.part (t.digit_name stage number) 0 32)
        (e.part (t.digit_name stage (number + 2)) 0 32))) }
{
    start_wire(out, stage, number + 3, 32)?;
    push_left(out, stage, number)?;
    push_text(out, b";\n")
}

/// Puts the wire of the new digits.
#[tactic(auto, unfolding(crate::specs::Pieces::wire_start, tta_verilog::specs::Circuits::wire_line))]
fn push_digits_wire(out: &mut Vec<u8>, stage: u32, number: u32) -> Result<(), AllocError>
    requires { number ≤ 160 }
    ensures { OnOk result (out.new.items ≡ out.old.items
        ++ v.wire_line (t.digit_name stage (number + 4)) 32
        (e.joined (e.part (t.part_name (p.digits_at stage number)) 0 31)
        (e.negated (t.digit_name stage (number + 1))))) }
{
    start_wire(out, stage, number + 4, 32)?;
    push_next_digits(out, stage, number)?;
    push_text(out, b";\n")
}

/// Puts the wires of a digit.
fn push_digit_wires(out: &mut Vec<u8>, stage: u32, number: u32) -> Result<(), AllocError>
    requires { number ≤ 160 }
    ensures { OnOk result (out.new.items ≡ out.old.items ++ flat_map (v.wire_text t.divider_names)
        (o.digit_wires (d.Digit stage) number (p.rest_at stage number)
        (Signal (p.digits_at stage number)) (Signal (d.divisor_before stage)))) }
{
    push_brought_wire(out, stage, number)?;
    push_against_wire(out, stage, number, 1, b"<", 1)?;
    push_against_wire(out, stage, number, 2, b"-", 33)?;
    push_left_wire(out, stage, number)?;
    push_digits_wire(out, stage, number)
}

/// Puts the wires of so many digits of a stage, from a number on.
pub fn push_wires_of(
    out: &mut Vec<u8>,
    stage: u32,
    number: u32,
    count: u32,
) -> Result<(), AllocError>
    requires { number + 5 * count ≤ 160 }
    ensures { OnOk result (out.new.items ≡ out.old.items ++ p.digits_text stage number count) }
{
    if count == 0 {
        return Ok(());
    }
    push_digit_wires(out, stage, number)?;
    push_wires_of(out, stage, number + 5, count - 1)
}
