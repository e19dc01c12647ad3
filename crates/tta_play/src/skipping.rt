//! The cycles of a run before those that a page plays.

ghost use Rattle.std.specs.Prelude.{◌≡◌, ◌+◌, ◌<◌, ◌≤◌, ◌^◌};
ghost use Rattle.tta_ops.specs.Set.{stated};
ghost use Rattle.tta_list.specs.Iterate.{iterate};
ghost use Rattle.tta_code.specs.Cycle.{State, next as next_state};
ghost use Rattle.tta_sim.specs.Held.{IsRunOf};
ghost use Rattle.tta_play.specs.Controls.{Follows};
ghost use Rattle.tta_play.specs.Steps.{IsAt};

use crate::control::{UnderWay, cycle_followed};
use tta_profile::{Basis, went_on};
use tta_run::{first_of, left_of};
use tta_sim::Sim;

/// Carries out so many cycles of a run, or as many as there are until it is over, and gives what is left
/// of the input.
pub fn skip<'w>(
    sim: &mut Sim,
    under_way: &mut Option<UnderWay>,
    basis: &Basis<'_>,
    input: &'w [u32],
    cycles: u64,
) -> &'w [u32]
    requires loaded { IsRunOf basis.now.m.now basis.now.code.now sim.old }
    requires few { sim.old.cycle + cycles < 2 ^ 62 }
    ensures loaded { IsRunOf basis.now.m.now basis.now.code.now sim.new }
    ensures counted { sim.new.cycle ≤ sim.old.cycle + cycles }
    ensures stands { let on = basis.now in
        let step = next_state (stated unit_meaning on.units.now) on.m.now on.code.now in
        (s : State) → Follows sim.old under_way.old s → s.rest ≡ input.now
        → IsAt step (Follows sim.new under_way.new) result.now (iterate cycles step s) }
{
    let mut left = cycles;
    let mut rest = input;
    'cycles: while left > 0 {
        let step = cycle_followed(sim, under_way, basis, first_of(rest));
        let Some(took) = went_on(step) else {
            return rest;
        };
        rest = left_of(rest, took);
        left -= 1;
    }
    rest
}
