//! The names of what the circuit has more, as parts of its text.

ghost use Rattle.std.specs.Prelude.{◌≡◌, ◌++◌, OnOk};
ghost use Rattle.tta_names.specs.Names.{text_of, watch_name};
ghost use Rattle.tta_names.specs.Watches.{place_of, watch_of};
ghost use Rattle.tta_rtl.specs.Texts.{wire_start};
ghost use Rattle.tta_trap.specs.Watches.{lacks};

use std::alloc::AllocError;
use tta_arch::Machine;
use tta_names::{Place, Watch, push_watch};
use tta_verilog::{push_range, push_text};

/// Puts how the line of a wire begins.
#[tactic(auto, unfolding(tta_rtl::specs::Texts::wire_start))]
pub fn start_watch(
    out: &mut Vec<u8>,
    m: &Machine,
    watch: Watch,
    width: u32,
) -> Result<(), AllocError>
    ensures { OnOk result (out.new.items ≡ out.old.items
        ++ wire_start (watch_name m.now (watch_of watch)) width) }
{
    push_text(out, b"wire ")?;
    push_range(out, width)?;
    push_watch(out, m, watch)?;
    push_text(out, b" = ")
}

/// Puts whether a place has had no word.
#[tactic(auto, unfolding(tta_verilog::specs::Expressions::negated))]
pub fn push_lacks(out: &mut Vec<u8>, m: &Machine, place: Place) -> Result<(), AllocError>
    ensures { OnOk result
        (out.new.items ≡ out.old.items ++ text_of m.now (lacks (place_of place))) }
{
    push_text(out, b"!(")?;
    push_watch(out, m, Watch::HasWord(place))?;
    push_text(out, b")")
}
