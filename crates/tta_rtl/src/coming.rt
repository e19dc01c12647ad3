//! The results that are on their way to a unit's result port.

ghost use Rattle.std.specs.Prelude.{◌≡◌, ◌+◌, ◌≤◌, ◌++◌, OnOk};
ghost use Rattle.tta_circuit.specs.Circuit as c;
ghost use Rattle.tta_hardware.specs.Signals as s;
ghost use Rattle.tta_hardware.specs.Wires as w;
ghost use Rattle.tta_names.specs.Names.{text_of};

use crate::on::On;
use crate::results::push_fresh;
use crate::starts::{OpWord, push_op_word};
use std::alloc::AllocError;
use tta_offers::longest;
use tta_verilog::push_constant;

/// Puts whether a result of a unit is due in so many cycles.
pub fn push_is_coming(out: &mut Vec<u8>, on: &On<'_>, unit: u8, delay: u8) -> Result<(), AllocError>
    ensures { OnOk result (out.new.items ≡ out.old.items
        ++ text_of on.now.m.now (w.is_coming on.now.m.now unit delay)) }
{
    if delay < longest(on.m, unit) {
        push_op_word(out, on.m, OpWord::IsDue, unit, delay)
    } else {
        push_constant(out, 1, 0)
    }
}

/// Puts the word that is due in so many cycles, or that of a load that began at the clock before and is
/// due at the same time.
fn push_due_now(out: &mut Vec<u8>, on: &On<'_>, unit: u8, delay: u8) -> Result<(), AllocError>
    requires later { delay + 1 ≤ 255 }
    ensures { OnOk result (out.new.items ≡ out.old.items ++ text_of on.now.m.now
        (w.fresh on.now.m.now unit (delay + 1) (c.Signal (s.Due unit delay)))) }
{
    push_fresh(out, on, unit, delay + 1)?;
    push_op_word(out, on.m, OpWord::Due, unit, delay)
}

/// Puts the word of a unit that is due in so many cycles.
pub fn push_coming(out: &mut Vec<u8>, on: &On<'_>, unit: u8, delay: u8) -> Result<(), AllocError>
    ensures { OnOk result (out.new.items ≡ out.old.items
        ++ text_of on.now.m.now (w.coming on.now.m.now unit delay)) }
{
    if delay < longest(on.m, unit) {
        push_due_now(out, on, unit, delay)
    } else {
        push_constant(out, 32, 0)
    }
}
