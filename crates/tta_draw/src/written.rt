//! What the picture of code writes into its cells.

ghost use Rattle.std.specs.Prelude.{◌≡◌, ◌++◌, OnOk};
ghost use Rattle.tta_ops.specs.Set.{stated};
ghost use Rattle.tta_draw.specs.Written.{written_move, written_long};

use crate::svg::push_number;
use std::alloc::AllocError;
use tta_arch::Machine;
use tta_code::{Long, Move};
use tta_disasm::{push_move, template_name};
use tta_ops::UnitSet;

/// Puts a move, as assembly has it.
#[tactic(auto, unfolding(crate::specs::Written::written_move))]
pub fn push_written(
    out: &mut Vec<u8>,
    units: &UnitSet,
    m: &Machine,
    v: Move,
) -> Result<(), AllocError>
    ensures { OnOk result (out.new.items ≡ out.old.items
        ++ written_move (stated unit_meaning units.now) m.now v) }
{
    push_move(out, units, m, v)
}

/// Puts a long immediate: its template and its word.
#[tactic(auto, unfolding(crate::specs::Written::written_long))]
pub fn push_long(out: &mut Vec<u8>, m: &Machine, l: Long) -> Result<(), AllocError>
    ensures { OnOk result (out.new.items ≡ out.old.items ++ written_long m.now l) }
{
    out.extend_from_slice(template_name(m, l.template))?;
    out.extend_from_slice(b"=")?;
    push_number(out, u64::from(l.value))
}
