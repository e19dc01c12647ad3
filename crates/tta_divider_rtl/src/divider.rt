//! The module of a divider.

ghost use Rattle.std.specs.Prelude.{◌≡◌, ◌≤◌, ◌+◌, ◌++◌, codes, true, false, OnOk};
ghost use Rattle.std.specs.List.{flat_map};
ghost use Rattle.tta_verilog.specs.Expressions as e;
ghost use Rattle.tta_verilog.specs.Circuits as v;
ghost use Rattle.tta_divider.specs.Divider as d;
ghost use Rattle.tta_divider_rtl.specs.Texts as t;

use crate::digits::push_wires_of;
use crate::names::{push_digits, push_rest};
use crate::registers::push_registers;
use crate::stages::made_by;
use std::alloc::AllocError;
use tta_divider::Kind;
use tta_verilog::{push_range, push_text};

/// Puts the wires of so many stages from one on.
fn push_stages(out: &mut Vec<u8>, stages: u32, stage: u32, count: u32) -> Result<(), AllocError>
    requires { stages ≤ 255 × stage + count ≤ stages + 1 }
    ensures { OnOk result (out.new.items ≡ out.old.items
        ++ flat_map (v.wire_text t.divider_names) (d.stage_wires stages stage count)) }
{
    if count == 0 {
        return Ok(());
    }
    push_wires_of(out, stage, 0, made_by(stages, stage))?;
    push_stages(out, stages, stage + 1, count - 1)
}

/// Puts what is shown.
fn push_shown_word(out: &mut Vec<u8>, kind: Kind, stages: u32) -> Result<(), AllocError>
    requires { stages ≤ 255 }
    ensures { OnOk result (out.new.items ≡ out.old.items
        ++ e.expression t.divider_names (d.shown_of kind (d.stage_cut stages stages))) }
{
    let number = 5 * made_by(stages, stages);
    match kind {
        Kind::Quotient => push_digits(out, stages, number),
        Kind::Remainder => push_rest(out, stages, number),
    }
}

/// Puts the wire that is shown.
#[tactic(auto, unfolding(tta_verilog::specs::Circuits::wire_line))]
fn push_shown(out: &mut Vec<u8>, kind: Kind, stages: u32) -> Result<(), AllocError>
    requires { stages ≤ 255 }
    ensures { OnOk result (out.new.items ≡ out.old.items ++ v.wire_line (codes "n_word") 32
        (e.expression t.divider_names (d.shown_of kind (d.stage_cut stages stages)))) }
{
    push_text(out, b"wire ")?;
    push_range(out, 32)?;
    push_text(out, b"n_word = ")?;
    push_shown_word(out, kind, stages)?;
    push_text(out, b";\n")
}

/// Puts the wires.
fn push_wires(out: &mut Vec<u8>, kind: Kind, stages: u32) -> Result<(), AllocError>
    requires { stages ≤ 255 }
    ensures { OnOk result (out.new.items ≡ out.old.items
        ++ flat_map (v.wire_text t.divider_names) (d.divider kind stages).wires) }
{
    push_stages(out, stages, 0, stages + 1)?;
    push_shown(out, kind, stages)
}

/// Puts the parts of the circuit.
fn push_parts(out: &mut Vec<u8>, kind: Kind, stages: u32) -> Result<(), AllocError>
    requires { stages ≤ 255 }
    ensures { OnOk result (out.new.items ≡ out.old.items ++ t.divider_parts kind stages) }
{
    push_registers(out, stages, 0, stages, true)?;
    push_wires(out, kind, stages)?;
    push_registers(out, stages, 0, stages, false)
}

/// Puts the ports.
fn push_ports(out: &mut Vec<u8>) -> Result<(), AllocError>
    ensures { OnOk result (out.new.items ≡ out.old.items ++ t.divider_ports) }
{
    push_text(
        out,
        b" (clk, enable, a, b, word);\ninput clk;\ninput [0:0] enable;\n",
    )?;
    push_text(
        out,
        b"input [31:0] a;\ninput [31:0] b;\noutput [31:0] word;\n",
    )
}

/// Puts a divider with registers behind so many stages, as a module of a name.
///
/// One with none makes the word of what it is given at the same clock (`divides_at_once` of tta_divider).
#[tactic(auto, unfolding(crate::specs::Texts::divider_text))]
pub fn write_divider(
    out: &mut Vec<u8>,
    name: &[u8],
    kind: Kind,
    stages: u8,
) -> Result<(), AllocError>
    ensures { OnOk result (out.new.items ≡ out.old.items ++ t.divider_text name.now kind stages) }
{
    push_text(out, b"module ")?;
    push_text(out, name)?;
    push_ports(out)?;
    push_parts(out, kind, u32::from(stages))?;
    push_text(out, b"assign word = n_word;\nendmodule\n")
}
