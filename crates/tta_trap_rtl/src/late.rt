//! Whether this clock carries the instruction out, which it does only where it meets no fault.

ghost use Rattle.std.specs.Prelude.{◌≡◌, ◌++◌, OnOk};
ghost use Rattle.tta_hardware.specs.Signals as s;
ghost use Rattle.tta_names.specs.Names.{text_of};
ghost use Rattle.tta_trap.specs.Pins.{is_fine};
ghost use Rattle.tta_trap.specs.Trap.{trap_made};
ghost use Rattle.tta_trap_rtl.specs.Texts.{goes_text};

use crate::numbers::FAULT_WIDTH;
use std::alloc::AllocError;
use tta_arch::Machine;
use tta_rtl::{On, push_goes_test, start_wire};
use tta_verilog::{push_constant, push_text};

/// Puts whether the next cycle meets no fault.
#[tactic(auto, unfolding(tta_verilog::specs::Expressions::between))]
pub fn push_fine(out: &mut Vec<u8>, m: &Machine) -> Result<(), AllocError>
    ensures { OnOk result (out.new.items ≡ out.old.items ++ text_of m.now is_fine) }
{
    push_text(out, b"(n_fault)==(")?;
    push_constant(out, FAULT_WIDTH, 0)?;
    push_text(out, b")")
}

/// Puts whether this clock carries the instruction out, with code of any length.
#[tactic(auto, unfolding(tta_verilog::specs::Expressions::between))]
fn push_goes_word(out: &mut Vec<u8>, on: &On<'_>) -> Result<(), AllocError>
    ensures { let M = on.now.m.now in
        OnOk result (out.new.items ≡ out.old.items ++ text_of M (trap_made M 0 s.Goes)) }
{
    push_text(out, b"(")?;
    push_fine(out, on.m)?;
    push_text(out, b")&&(")?;
    push_goes_test(out, on)?;
    push_text(out, b")")
}

/// Puts the wire of that.
#[tactic(auto, unfolding(tta_rtl::specs::Texts::wire_start, tta_verilog::specs::Circuits::wire_line, crate::specs::Texts::goes_text))]
pub fn push_goes(out: &mut Vec<u8>, on: &On<'_>) -> Result<(), AllocError>
    ensures { OnOk result (out.new.items ≡ out.old.items ++ goes_text on.now.m.now) }
{
    start_wire(out, b"n_goes", 1)?;
    push_goes_word(out, on)?;
    push_text(out, b";\n")
}
