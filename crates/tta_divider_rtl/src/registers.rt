//! The registers between stages.

ghost use Rattle.std.specs.Prelude.{◌≡◌, ◌≤◌, ◌+◌, ◌++◌, codes, OnOk};
ghost use Rattle.std.specs.List.{flat_map};
ghost use Rattle.tta_verilog.specs.Expressions as e;
ghost use Rattle.tta_verilog.specs.Circuits as v;
ghost use Rattle.tta_divider.specs.Divider as d;
ghost use Rattle.tta_divider_rtl.specs.Texts as t;
ghost use Rattle.tta_divider_rtl.specs.Pieces as p;

use crate::names::{push_digits, push_divisor, push_numbered, push_rest};
use crate::stages::made_by;
use std::alloc::AllocError;
use tta_verilog::{push_range, push_text};

/// Puts a register as it is declared.
#[tactic(auto, unfolding(crate::specs::Pieces::declared))]
fn push_declared(out: &mut Vec<u8>, what: &[u8], stage: u32) -> Result<(), AllocError>
    ensures { OnOk result (out.new.items ≡ out.old.items
        ++ p.declared (t.numbered what.now stage)) }
{
    push_text(out, b"reg ")?;
    push_range(out, 32)?;
    push_numbered(out, what, stage)?;
    push_text(out, b";\n")
}

/// Puts the registers behind a stage as they are declared.
#[tactic(auto, unfolding(crate::specs::Pieces::behind_declared))]
fn push_behind_declared(out: &mut Vec<u8>, stage: u32) -> Result<(), AllocError>
    requires { stage ≤ 255 }
    ensures { OnOk result (out.new.items ≡ out.old.items ++ p.behind_declared stage) }
{
    push_declared(out, b"rest_", stage + 1)?;
    push_declared(out, b"digits_", stage + 1)?;
    push_declared(out, b"divisor_", stage + 1)
}

/// Puts how it is said that something is done at clocks that are enabled.
#[tactic(auto, unfolding(crate::specs::Pieces::where_enabled))]
fn push_where_enabled(out: &mut Vec<u8>) -> Result<(), AllocError>
    ensures { OnOk result (out.new.items ≡ out.old.items ++ p.where_enabled) }
{
    push_text(out, b"always @(posedge clk) if (enable) ")
}

/// Puts what the register of the rest behind a stage takes.
#[tactic(auto, unfolding(crate::specs::Pieces::takes))]
fn push_rest_taken(out: &mut Vec<u8>, stage: u32, number: u32) -> Result<(), AllocError>
    requires { stage ≤ 255 }
    ensures { OnOk result (out.new.items ≡ out.old.items
        ++ p.takes (t.numbered (codes "rest_") (stage + 1))
        (e.expression t.divider_names (p.rest_at stage number))) }
{
    push_where_enabled(out)?;
    push_numbered(out, b"rest_", stage + 1)?;
    push_text(out, b" <= ")?;
    push_rest(out, stage, number)?;
    push_text(out, b";\n")
}

/// Puts what that of the digits takes.
#[tactic(auto, unfolding(crate::specs::Pieces::takes))]
fn push_digits_taken(out: &mut Vec<u8>, stage: u32, number: u32) -> Result<(), AllocError>
    requires { stage ≤ 255 }
    ensures { OnOk result (out.new.items ≡ out.old.items
        ++ p.takes (t.numbered (codes "digits_") (stage + 1))
        (t.part_name (p.digits_at stage number))) }
{
    push_where_enabled(out)?;
    push_numbered(out, b"digits_", stage + 1)?;
    push_text(out, b" <= ")?;
    push_digits(out, stage, number)?;
    push_text(out, b";\n")
}

/// Puts what that of the divisor takes.
#[tactic(auto, unfolding(crate::specs::Pieces::takes))]
fn push_divisor_taken(out: &mut Vec<u8>, stage: u32) -> Result<(), AllocError>
    requires { stage ≤ 255 }
    ensures { OnOk result (out.new.items ≡ out.old.items
        ++ p.takes (t.numbered (codes "divisor_") (stage + 1))
        (t.part_name (d.divisor_before stage))) }
{
    push_where_enabled(out)?;
    push_numbered(out, b"divisor_", stage + 1)?;
    push_text(out, b" <= ")?;
    push_divisor(out, stage)?;
    push_text(out, b";\n")
}

/// Puts what the registers behind a stage take.
#[tactic(auto, unfolding(crate::specs::Pieces::behind_taken))]
fn push_behind_taken(out: &mut Vec<u8>, stage: u32, number: u32) -> Result<(), AllocError>
    requires { stage ≤ 255 }
    ensures { OnOk result (out.new.items ≡ out.old.items ++ p.behind_taken stage number) }
{
    push_rest_taken(out, stage, number)?;
    push_digits_taken(out, stage, number)?;
    push_divisor_taken(out, stage)
}

/// Puts the registers behind a stage, or what they take.
fn push_behind(out: &mut Vec<u8>, stages: u32, stage: u32, declares: bool) -> Result<(), AllocError>
    requires { stages ≤ 255 × stage ≤ stages }
    ensures { OnOk result (out.new.items ≡ out.old.items
        ++ p.behind_text declares stages stage) }
{
    if declares {
        push_behind_declared(out, stage)
    } else {
        push_behind_taken(out, stage, 5 * made_by(stages, stage))
    }
}

/// Puts the registers behind so many stages from one on, or what they take.
pub fn push_registers(
    out: &mut Vec<u8>,
    stages: u32,
    stage: u32,
    count: u32,
    declares: bool,
) -> Result<(), AllocError>
    requires { stages ≤ 255 × stage + count ≤ stages }
    ensures { OnOk result (out.new.items ≡ out.old.items
        ++ flat_map (v.register_text t.divider_names declares)
        (d.stage_registers stages stage count)) }
{
    if count == 0 {
        return Ok(());
    }
    push_behind(out, stages, stage, declares)?;
    push_registers(out, stages, stage + 1, count - 1, declares)
}
