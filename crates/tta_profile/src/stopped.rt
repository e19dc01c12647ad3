//! Which moves of an instruction their guards stop.

ghost use Rattle.std.specs.Prelude.{◌≡◌, ◌≤◌, ◌<◌, ◌==◌, ◌||◌, ◌&&◌, ℕ, None, Some, false, length, IsTrue, slice_index_or};
ghost use Rattle.std.specs.Option.{option_map_or};
ghost use Rattle.std.specs.List.{AllByRecursion};
ghost use Rattle.tta_arch.specs.Joins.{has_bit};
ghost use Rattle.tta_code.specs.Cycle.{State};
ghost use Rattle.tta_sim.specs.Held.{Stands};
ghost use Rattle.tta_sim.specs.Moves.{is_askable, is_possible_slot};
ghost use Rattle.tta_profile.specs.Counts.{is_stopped, most_buses};

use tta_arch::with_bus;
use tta_code::Move;
use tta_sim::Sim;

/// Whether the guard of a move stops it in the next cycle.
fn is_stopped(sim: &Sim, v: Move) -> bool
    requires { IsTrue (is_askable v.guard) }
    ensures { (s : State) → Stands sim.now s → result ≡ is_stopped s v }
{
    let Some(on) = v.guard else {
        return false;
    };
    match sim.reg(on.file, on.index) {
        None => true,
        Some(word) => on.inverted != (word == 0),
    }
}

/// The same of a slot, which may be empty.
fn is_slot_stopped(sim: &Sim, units: usize, slot: Option<Move>) -> bool
    requires { IsTrue (is_possible_slot units slot) }
    ensures { (s : State) → Stands sim.now s → result ≡ option_map_or (is_stopped s) slot false }
{
    match slot {
        None => false,
        Some(v) => is_stopped(sim, v),
    }
}

/// A set with one bus more, where something holds.
fn with_bus_if(buses: u16, bus: usize, test: bool) -> u16
    requires { bus < most_buses }
    ensures { (k : ℕ) → has_bit result k ≡ (has_bit buses k || (test && bus == k)) }
{
    if test { with_bus(buses, bus) } else { buses }
}

/// The buses whose moves their guards stop in the next cycle.
pub fn stopped_of(sim: &Sim, units: usize, slots: &[Option<Move>]) -> u16
    requires few { length slots.now ≤ most_buses }
    requires possible { AllByRecursion (λ slot. IsTrue (is_possible_slot units slot)) slots.now }
    ensures { (s : State) → Stands sim.now s → (bus : ℕ)
        → has_bit result bus ≡ option_map_or (is_stopped s) (slice_index_or slots.now bus None) false }
{
    let mut stopped = 0;
    for (bus, slot) in slots.iter().enumerate() {
        stopped = with_bus_if(stopped, bus, is_slot_stopped(sim, units, *slot));
    }
    stopped
}
