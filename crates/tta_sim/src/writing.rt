//! What a cycle writes into registers and operand ports.

ghost use Rattle.std.specs.Prelude.{◌≡◌, ◌<◌, ◌++◌, None, slice_index_or};
ghost use Rattle.std.specs.List.{AllByRecursion};
ghost use Rattle.tta_arch.specs.Effects.{Written};
ghost use Rattle.tta_sim.specs.Places.{place_count, HasWritten};
ghost use Rattle.tta_sim.specs.Known.{Grows};
ghost use Rattle.tta_sim.specs.Writing.{numbered, ArePlaces};

use crate::lines::Write;
use crate::places::Places;

/// Writes the words, the last first.
#[inline(always)]
pub fn write_all(places: &mut Places, writes: &[Write])
    requires { AllByRecursion (λ w. w.place < place_count) writes.now }
    ensures written { (new old : Written) → writes.now ≡ numbered new → ArePlaces new
        → HasWritten places.old old → HasWritten places.new (new ++ old) }
    ensures grows { Grows (λ k. slice_index_or places.old k None)
        (λ k. slice_index_or places.new k None) }
{
    let mut i = writes.len();
    while i > 0 {
        i -= 1;
        let w = &writes[i];
        places.set(w.place as usize, w.word);
    }
}
