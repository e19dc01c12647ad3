//! Results that begin.

ghost use Rattle.std.specs.Prelude.{ℕ, map};
ghost use Rattle.tta_sim.specs.Results.{results_at, shown_by, AreThere};
ghost use Rattle.tta_sim.specs.Dues.{started_at, CanAllBegin, CanBegin, HasBegun};
ghost use Rattle.tta_sim.specs.Known.{Grows};
ghost use Rattle.tta_sim.specs.Ready.{Begin, KeepsOthers};

use crate::dues::Due;
use crate::results::Part;
use tta_flight::Region;

/// Starts a result, where the machine's first unit is `base` and its units are in the next cycle
/// already, so that the result is due one cycle earlier from there.
#[inline(always)]
fn begin(region: &mut Region, base: u8, due: &Due)
    requires { CanBegin base region.old due.now }
    ensures { HasBegun base due.now region.old region.new }
{
    region.start(base + due.unit, due.latency - 1, due.value);
}

/// Goes to the next cycle of a machine's units, and starts the results that operations show.
#[inline(always)]
pub fn begin_all(region: &mut Region, part: Part, dues: &[Due])
    requires there { AreThere (results_at part region.old) }
    requires can { CanAllBegin (results_at part region.old) dues.now }
    ensures begun { (now : ℕ) → let new = map (started_at now) dues.now in
        Begin new now (results_at part region.old) (results_at part region.new) }
    ensures ports { Grows (shown_by (results_at part region.old))
        (shown_by (results_at part region.new)) }
    ensures others { KeepsOthers part region.old region.new }
{
    region.advance_units(part.base, part.count);
    for due in dues {
        begin(region, part.base, due);
    }
}
