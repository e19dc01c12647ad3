//! The names of what only a circuit has that leaves operations to modules.

ghost use Rattle.std.specs.Prelude.{◌≡◌, ◌++◌, OnOk};
ghost use Rattle.tta_hardware.specs.Signals.{IsFrom, Shows};
ghost use Rattle.tta_names.specs.Names.{box_name};

use crate::names::push_of_op;
use std::alloc::AllocError;
use tta_arch::Machine;
use tta_verilog::{push_number, push_text};

/// Puts the name of what the module of an operation shows.
pub fn push_made_name(out: &mut Vec<u8>, m: &Machine, unit: u8, op: u8) -> Result<(), AllocError>
    ensures { OnOk result (out.new.items ≡ out.old.items ++ box_name m.now (Shows unit op)) }
{
    push_of_op(out, m, b"made_", unit, op)
}

/// Puts the name of what says whether the result that is due in so many cycles is that of an operation.
pub fn push_from_name(
    out: &mut Vec<u8>,
    m: &Machine,
    unit: u8,
    op: u8,
    delay: u8,
) -> Result<(), AllocError>
    ensures { OnOk result
        (out.new.items ≡ out.old.items ++ box_name m.now (IsFrom unit op delay)) }
{
    push_of_op(out, m, b"from_", unit, op)?;
    push_text(out, b"_")?;
    push_number(out, u64::from(delay))
}
