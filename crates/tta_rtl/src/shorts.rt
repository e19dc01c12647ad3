//! The short field of a bus as a part of the instruction's word.

ghost use Rattle.std.specs.Prelude.{◌≡◌, ◌<◌, ◌≤◌, ◌^◌, ◌++◌, OnOk};
ghost use Rattle.tta_hardware.specs.Parts as p;
ghost use Rattle.tta_hardware.specs.Signals as s;
ghost use Rattle.tta_circuit.specs.Circuit as c;
ghost use Rattle.tta_names.specs.Names.{text_of};
ghost use Rattle.tta_rtl.specs.Parts.{high_text, short_text};

use crate::templates::push_part;
use std::alloc::AllocError;
use tta_arch::Machine;
use tta_verilog::{push_constant, push_text};

/// Puts a short field, with these bits above it if there are any above it.
#[tactic(auto, unfolding(tta_verilog::specs::Expressions::joined))]
fn push_with_high(out: &mut Vec<u8>, low: u32, width: u32, high: u64) -> Result<(), AllocError>
    requires { width ≤ 32 }
    ensures { OnOk result (out.new.items ≡ out.old.items ++ high_text low width high) }
{
    if width == 32 {
        return push_part(out, low, width);
    }
    push_text(out, b"{")?;
    push_constant(out, 32 - width, high)?;
    push_text(out, b",")?;
    push_part(out, low, width)?;
    push_text(out, b"}")
}

/// Puts the word of a short field of so many bits that stands so high.
#[tactic(auto, unfolding(tta_verilog::specs::Expressions::choice))]
fn push_short(out: &mut Vec<u8>, low: u32, width: u32, signed: bool) -> Result<(), AllocError>
    requires some { 1 ≤ width }
    requires few { width ≤ 32 }
    requires room { low < 2 ^ 31 }
    ensures { OnOk result (out.new.items ≡ out.old.items ++ short_text low width signed) }
{
    if !signed {
        return push_with_high(out, low, width, 0);
    }
    push_text(out, b"(")?;
    push_part(out, low + (width - 1), 1)?;
    push_text(out, b")?(")?;
    push_with_high(out, low, width, (1 << (32 - width)) - 1)?;
    push_text(out, b"):")?;
    push_with_high(out, low, width, 0)
}

/// Puts the word of the short field of a bus, which stands so high.
#[tactic(auto, using(crate::proofs::Shares::short_is))]
pub fn push_short_of(out: &mut Vec<u8>, m: &Machine, bus: usize, low: u32) -> Result<(), AllocError>
    requires room { low < 2 ^ 31 }
    requires low { low ≡ p.below_payload m.now bus }
    ensures { let T = text_of m.now in
        OnOk result (out.new.items ≡ out.old.items
        ++ T (p.short_part m.now (c.Signal s.Whole) bus)) }
{
    match m.buses.as_slice().get(bus) {
        Some(b) => push_short(out, low, u32::from(b.short), b.signed),
        None => push_with_high(out, low, 0, 0),
    }
}
